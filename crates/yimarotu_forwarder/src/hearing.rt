//! What a fetch makes of what its transaction came to.
ghost use Rattle.std.specs.Prelude.{◌≡◌, ◌<◌, length, slice_get, IfOk, OnErr, OnOk, Some};
ghost use Rattle.std.specs.Option.{option_map};
ghost use Rattle.yimarotu_forwarder.specs.FetchTables.{HasTurn, fetches_of};
ghost use Rattle.yimarotu_forwarder.specs.Forwarders.{TellingValue};
ghost use Rattle.yimarotu_forwarder.specs.Hearing.{GoesOn, HearsAsker, HearsAt, HearsNext, HearsWithTurn, StopsGoingOn, TakesTurn};
ghost use Rattle.yimarotu_forwarder.specs.Telling.{StopsTelling, Tells, heard_so, one_more, told_of};

use crate::fetch::Fetch;
use crate::fetches::Fetches;
use crate::forwarder::Forwarder;
use crate::telling::{Telling, Told};
use client_requests::ReplyKey;
use std::alloc::{AllocError, Global};

impl Forwarder {
    // The next of the askers is told. Where all were, the transaction is let go.
    pub(crate) fn tell(&mut self) -> Result<(), AllocError>
        ensures ok { (t : TellingValue) → self.old.telling ≡ Some t → OnOk result (Tells self.old self.new t) }
        ensures err { (t : TellingValue) → self.old.telling ≡ Some t
            → OnErr result (StopsTelling self.old self.new t) }
    {
        match self.next_asker() {
            Some(asker) => {
                let end = self.end_of_chain(asker)?;
                let heard = self.hear_next(asker)?;
                self.chain_end = end;
                self.go_on(heard)
            }
            None => {
                self.telling = None;
                Ok(())
            }
        }
    }

    fn next_asker(&self) -> Option<u64>
        ensures { (t : TellingValue) → self.now.telling ≡ Some t → result ≡ slice_get t.over.askers t.told }
    {
        match &self.telling {
            Some(telling) => telling.next_asker(),
            None => None,
        }
    }

    // The fetch for which the next asker asks hears what the transaction came to. A refused call changes nothing.
    fn hear_next(&mut self, asker: u64) -> Result<Option<(ReplyKey, Told)>, AllocError>
        ensures ok { (t : TellingValue) → self.old.telling ≡ Some t → slice_get t.over.askers t.told ≡ Some asker
            → IfOk result (λ heard. HearsNext t asker heard self.old self.new) }
        ensures err { OnErr result (self.new ≡ self.old) }
    {
        let (alloc, second) = (self.alloc, self.second());
        match &mut self.telling {
            Some(telling) if telling.next_asker().is_some() => {
                hear_asker(alloc, &mut self.fetches, telling, asker, second)
            }
            _ => Ok(None),
        }
    }

    // A fetch that heard the end of its look-up is over. Where no memory is left for that, it fails.
    fn go_on(&mut self, heard: Option<(ReplyKey, Told)>) -> Result<(), AllocError>
        ensures ok { OnOk result (GoesOn heard self.old self.new) }
        ensures err { OnErr result (StopsGoingOn heard self.old self.new) }
    {
        let Some((key, told)) = heard else {
            return Ok(());
        };
        match told {
            Told::Asks => Ok(()),
            Told::Whole(kept) => self.end_whole(key, kept),
            Told::Fails(why) => self.end_failed(key, why),
        }
    }
}

// The fetch for which an asker asks, where there is one, hears what the transaction came to: its key, and what that
// tells it. One that goes on has a question to ask. The asker is told. A refused call changes nothing.
fn hear_asker(
    alloc: Global,
    fetches: &mut Fetches,
    telling: &mut Telling,
    asker: u64,
    second: u64,
) -> Result<Option<(ReplyKey, Told)>, AllocError>
    requires { telling.old.told < length telling.old.over.askers }
    ensures ok { IfOk result (λ heard. HearsAsker telling.old.over asker second heard (fetches_of fetches.old)
        (fetches_of fetches.new)) }
    ensures told { OnOk result (telling.new ≡ one_more telling.old) }
    ensures fetches { OnErr result (fetches_of fetches.new ≡ fetches_of fetches.old) }
    ensures telling { OnErr result (telling.new ≡ telling.old) }
{
    match fetches.asked_for(asker) {
        Some(key) => {
            let told = hear_turn(alloc, fetches, &key, telling, second)?;
            fetches.remove_asker(asker);
            telling.count();
            Ok(with_key(key, told))
        }
        None => {
            telling.count();
            Ok(None)
        }
    }
}

fn with_key(key: ReplyKey, told: Option<Told>) -> Option<(ReplyKey, Told)>
    ensures { result ≡ option_map (λ t. (key, t)) told }
{
    match told {
        Some(told) => Some((key, told)),
        None => None,
    }
}

// What the fetch of a key hears; none where there is no such fetch. One that goes on has a question to ask. A refused
// call changes nothing.
fn hear_turn(
    alloc: Global,
    fetches: &mut Fetches,
    key: &ReplyKey,
    telling: &Telling,
    second: u64,
) -> Result<Option<Told>, AllocError>
    ensures ok { IfOk result (λ told. HearsWithTurn telling.now.over second key.now told (fetches_of fetches.old)
        (fetches_of fetches.new)) }
    ensures err { OnErr result (fetches_of fetches.new ≡ fetches_of fetches.old) }
{
    fetches.reserve_turn()?;
    let told = hear(alloc, fetches, key, telling, second)?;
    match told {
        Some(told) => {
            take_turn(fetches, key, &told);
            Ok(Some(told))
        }
        None => Ok(None),
    }
}

// A fetch that goes on has a question to ask.
fn take_turn(fetches: &mut Fetches, key: &ReplyKey, told: &Told)
    requires { HasTurn fetches.old }
    ensures { TakesTurn told.now key.now (fetches_of fetches.old) (fetches_of fetches.new) }
{
    match told {
        Told::Asks => fetches.push_to_ask(key.copied()),
        _ => {}
    }
}

// What the fetch of a key hears; none where there is no such fetch. A refused call changes nothing.
fn hear(
    alloc: Global,
    fetches: &mut Fetches,
    key: &ReplyKey,
    telling: &Telling,
    second: u64,
) -> Result<Option<Told>, AllocError>
    ensures ok { IfOk result (λ told. HearsAt telling.now.over second key.now told (fetches_of fetches.old)
        (fetches_of fetches.new)) }
    ensures err { OnErr result (fetches_of fetches.new ≡ fetches_of fetches.old) }
    ensures turn { HasTurn fetches.old → HasTurn fetches.new }
{
    match fetches.fetches.get_mut(key) {
        Some(fetch) => match hear_fetch(alloc, fetch, telling, second) {
            Ok(told) => Ok(Some(told)),
            Err(error) => Err(error),
        },
        None => Ok(None),
    }
}

fn hear_fetch(
    alloc: Global,
    fetch: &mut Fetch,
    telling: &Telling,
    second: u64,
) -> Result<Told, AllocError>
    ensures told { IfOk result (λ told. told ≡ told_of telling.now.over fetch.old) }
    ensures ok { OnOk result (fetch.new ≡ heard_so telling.now.over second fetch.old) }
    ensures err { OnErr result (fetch.new ≡ fetch.old) }
{
    match telling.response() {
        Some(message) => fetch.hear(alloc, message, second),
        None => Ok(Told::Fails(telling.reason())),
    }
}

//! The look-ups of a session with a network, and the queues in which they stand.
ghost use Rattle.std.specs.Prelude.{◌≡◌, ◌<◌, IfOk, OnErr, OnOk, slice_get, true};
ghost use Rattle.indexmap.specs.IndexMap.{spare};
ghost use Rattle.std.specs.Bool.{OnFalse, OnTrue};
ghost use Rattle.std.specs.List.{list_any};
ghost use Rattle.std.specs.Option.{is_some, option_map};
ghost use Rattle.std.specs.VecDeque.{deque_capacity, deque_len};
ghost use Rattle.hickory_proto_core.specs.Query.{query_eq};
ghost use Rattle.yimarotu_session.specs.Ahead.{ahead_of, told_ahead};
ghost use Rattle.yimarotu_session.specs.LookupTables.{BeginsAt, ChangesAhead, DropsAhead, HasRoomToAsk, HasRoomToForget, HasRoomToStart, HasTurns, IsAnnounced, IsForgotten, IsReordered, LeavesAhead, MakesRoom, ahead_at, announced, asked_by, asker_of, askers_without, first_announced, first_asked, first_forgotten, held_at, if_waits_ahead, if_waits_for, is_unannounced, no_lookups, question_ahead, question_to_ask, table_of, to_announce_with, to_ask_with, waits_ahead, waits_for, with_asker, without_asker, without_told};
ghost use Rattle.yimarotu_session.specs.NetworkSteps.{GoesOnAt};
ghost use Rattle.yimarotu_session.specs.Sessions.{PutsUnder};

use crate::ahead::{
    Ahead, SecondQuestion, asker_ahead, is_ahead, let_go, let_go_of, put, take, tell,
};
use crate::network_lookup::{
    NetworkLookup, announce, asker_of, go_on, is_same, is_unannounced, question_ahead,
    question_to_ask, wait_for,
};
use crate::network_session::NetworkResolver;
use crate::numbered::forget;
use crate::session_error::SessionError;
use hickory_proto_core::{Outcome, Query};
use hickory_resolver::Attempted;
use hickory_resolver_pool::Asker;
use indexmap::IndexMap;
use std::alloc::{AllocError, Global};
use std::collections::{HashMap, VecDeque};

// Look-ups by number, and what is asked ahead of those of addresses; the askers of the pool, each with the number of
// the look-up that it asks for; the numbers of those that have a question to ask, and of those that are to be
// announced; and the askers that the pool is still to forget. Of the look-ups alone the order changes where room is
// made, after all other room was.
#[derive(Drop)]
pub(crate) struct LookupTable {
    pub(crate) lookups: HashMap<u64, NetworkLookup>,
    pub(crate) ahead: IndexMap<u64, Ahead>,
    pub(crate) askers: IndexMap<u64, u64>,
    pub(crate) to_ask: VecDeque<u64>,
    pub(crate) to_announce: VecDeque<u64>,
    pub(crate) to_forget: VecDeque<Asker>,
}

impl LookupTable {
    pub(crate) fn new(alloc: Global) -> LookupTable
        ensures { table_of result ≡ no_lookups }
    {
        LookupTable {
            lookups: HashMap::new(alloc),
            ahead: IndexMap::new(alloc),
            askers: IndexMap::new(alloc),
            to_ask: VecDeque::new(alloc),
            to_announce: VecDeque::new(alloc),
            to_forget: VecDeque::new(alloc),
        }
    }

    // ---- room

    // Room for one more in each queue.
    pub(crate) fn reserve_turns(&mut self) -> Result<(), AllocError>
        ensures same { table_of self.new ≡ table_of self.old }
        ensures lookups { self.new.lookups ≡ self.old.lookups }
        ensures ahead { self.new.ahead ≡ self.old.ahead }
        ensures askers { self.new.askers ≡ self.old.askers }
        ensures room { OnOk result (HasTurns self.new) }
    {
        self.to_ask.reserve(1)?;
        self.to_announce.reserve(1)
    }

    // Room for one more asker, and in each queue.
    pub(crate) fn reserve_asker(&mut self) -> Result<(), AllocError>
        ensures same { table_of self.new ≡ table_of self.old }
        ensures room { OnOk result (HasRoomToAsk self.new) }
    {
        self.askers.reserve(1)?;
        self.reserve_turns()
    }

    // Room for one more look-up under this number, which no other may have, and in each queue.
    pub(crate) fn reserve_lookup(&mut self, number: u64) -> Result<(), SessionError>
        ensures made { MakesRoom number (table_of self.old) result (table_of self.new) }
        ensures room { OnOk result (HasRoomToStart self.new) }
    {
        if self.lookups.contains_key(&number) {
            return Err(SessionError::InUse);
        }
        match self.reserve_to_start() {
            Ok(()) => Ok(()),
            Err(AllocError) => Err(SessionError::OutOfMemory),
        }
    }

    fn reserve_to_start(&mut self) -> Result<(), AllocError>
        ensures ok { OnOk result (IsReordered (table_of self.old) (table_of self.new)) }
        ensures err { OnErr result (table_of self.new ≡ table_of self.old) }
        ensures room { OnOk result (HasRoomToStart self.new) }
    {
        self.reserve_turns()?;
        self.ahead.reserve(1)?;
        self.lookups.reserve(1)
    }

    // Room for one more asker that is to be forgotten.
    pub(crate) fn reserve_forgetting(&mut self) -> Result<(), AllocError>
        ensures same { table_of self.new ≡ table_of self.old }
        ensures room { OnOk result (HasRoomToForget self.new) }
    {
        self.to_forget.reserve(1)
    }

    // ---- look-ups

    // A look-up begins under a number, with a place for what is asked ahead of it, or with none.
    pub(crate) fn begin(&mut self, number: u64, lookup: NetworkLookup, ahead: Option<Ahead>)
        requires { HasRoomToStart self.old }
        ensures { BeginsAt number lookup ahead (table_of self.old) (table_of self.new) }
    {
        push(&mut self.to_ask, &mut self.to_announce, number, &lookup);
        drop(self.lookups.insert(number, lookup));
        place(&mut self.ahead, number, ahead);
    }

    // The look-up of a number, where there is one, goes on with what it is told, and stands in its queue again.
    pub(crate) fn go_on(&mut self, resolver: &mut NetworkResolver, number: u64, outcome: Outcome)
        requires { HasTurns self.old }
        ensures { GoesOnAt outcome number resolver.old (table_of self.old) resolver.new (table_of self.new) }
    {
        if let Some(lookup) = self.lookups.get_mut(&number) {
            go_on(resolver, lookup, outcome);
            push(&mut self.to_ask, &mut self.to_announce, number, lookup);
        } else {
            drop(outcome);
        }
    }

    // The question of a look-up that waits to ask it, under an absolute name.
    pub(crate) fn question_to_ask(&self, number: u64) -> Result<Option<Query>, AllocError>
        ensures { IfOk result (λ query. query ≡ question_to_ask (held_at number (table_of self.now))) }
    {
        question_to_ask(self.lookups.get(&number))
    }

    // The question of the second family of the look-up of a number, where nothing was asked ahead yet.
    pub(crate) fn question_ahead(
        &self,
        resolver: &NetworkResolver,
        number: u64,
    ) -> Result<Option<SecondQuestion>, AllocError>
        ensures { IfOk result (λ query. query
            ≡ question_ahead resolver.now (held_at number (table_of self.now)) (ahead_at number (table_of self.now))) }
    {
        question_ahead(resolver, self.lookups.get(&number), self.ahead.get(&number))
    }

    // The look-up of a number, which waits to ask, waits for what this asker is told.
    pub(crate) fn wait_for(&mut self, number: u64, asker: Asker)
        requires { HasRoomToAsk self.old }
        ensures puts { PutsUnder number (option_map (asked_by asker) (held_at number (table_of self.old)))
            self.old.lookups.entries self.new.lookups.entries }
        ensures others { table_of self.new
            ≡ record (with_asker asker number (table_of self.old)) { lookups = self.new.lookups.entries } }
    {
        if let Some(lookup) = self.lookups.get_mut(&number) {
            wait_for(lookup, asker);
        }
        self.insert_asker(asker, number);
    }

    // The number of the look-up that waits for what this asker is told, where it was not forgotten.
    pub(crate) fn waits_for(&self, asker: &Asker) -> Option<u64>
        ensures { result ≡ waits_for asker.now (table_of self.now) }
    {
        match self.askers.get(&asker.number) {
            Some(number) => self.if_waits_for(asker, *number),
            None => None,
        }
    }

    fn if_waits_for(&self, asker: &Asker, number: u64) -> Option<u64>
        ensures { result ≡ if_waits_for asker.now (table_of self.now) number }
    {
        if is_same(asker, asker_of(self.lookups.get(&number))) {
            Some(number)
        } else {
            None
        }
    }

    // The number of the look-up ahead of which this asker asks, where it was not forgotten.
    pub(crate) fn waits_ahead(&self, asker: &Asker) -> Option<u64>
        ensures { result ≡ waits_ahead asker.now (table_of self.now) }
    {
        match self.askers.get(&asker.number) {
            Some(number) => self.if_waits_ahead(asker, *number),
            None => None,
        }
    }

    fn if_waits_ahead(&self, asker: &Asker, number: u64) -> Option<u64>
        ensures { result ≡ if_waits_ahead asker.now (table_of self.now) number }
    {
        if is_same(asker, asker_ahead(self.ahead.get(&number))) {
            Some(number)
        } else {
            None
        }
    }

    // An asker asks for the look-up of a number.
    fn insert_asker(&mut self, asker: Asker, number: u64)
        requires { HasRoomToAsk self.old }
        ensures same { table_of self.new ≡ with_asker asker number (table_of self.old) }
        ensures lookups { self.new.lookups ≡ self.old.lookups }
        ensures ahead { self.new.ahead ≡ self.old.ahead }
    {
        drop(self.askers.insert(asker.number, number));
    }

    pub(crate) fn remove_asker(&mut self, asker: u64)
        ensures same { table_of self.new ≡ without_asker asker (table_of self.old) }
        ensures turns { HasTurns self.old → HasTurns self.new }
    {
        self.askers.swap_remove(&asker);
    }

    // ---- what is asked ahead

    // What was asked ahead of the look-up of a number, where it is this question. It leaves its place.
    pub(crate) fn take_ahead(&mut self, number: u64, query: &Query) -> Ahead
        ensures taken { result ≡ ahead_of query.now (ahead_at number (table_of self.old)) }
        ensures left { LeavesAhead result number (table_of self.old) (table_of self.new) }
        ensures room { HasRoomToAsk self.old → HasRoomToAsk self.new }
    {
        if !is_ahead(query, self.ahead.get(&number)) {
            return Ahead::Nothing;
        }
        match self.ahead.get_mut(&number) {
            Some(ahead) => take(ahead),
            None => Ahead::Nothing,
        }
    }

    // This question is asked ahead of the look-up of a number, by this asker.
    pub(crate) fn wait_ahead(&mut self, number: u64, second: SecondQuestion, asker: Asker)
        requires { HasRoomToAsk self.old }
        ensures { ChangesAhead number (λ nothing. Ahead.Waits second asker)
            (with_asker asker number (table_of self.old)) (table_of self.new) }
    {
        if let Some(ahead) = self.ahead.get_mut(&number) {
            put(ahead, Ahead::Waits(second, asker));
        }
        self.insert_asker(asker, number);
    }

    // This asker, who asks ahead of the look-up of a number, is told this.
    pub(crate) fn tell_ahead(&mut self, told: u64, number: u64, outcome: Outcome)
        ensures { ChangesAhead number (told_ahead outcome) (without_asker told (table_of self.old)) (table_of self.new) }
    {
        self.askers.swap_remove(&told);
        if let Some(ahead) = self.ahead.get_mut(&number) {
            tell(ahead, outcome);
        } else {
            drop(outcome);
        }
    }

    // All that was told ahead is let go.
    pub(crate) fn let_go(&mut self)
        ensures { table_of self.new ≡ without_told (λ q. true) (table_of self.old) }
    {
        self.ahead.retain(|_, ahead| {
            let_go(ahead);
            true
        });
    }

    // What was told ahead of these questions is let go.
    pub(crate) fn let_go_of(&mut self, attempted: &[Attempted])
        ensures { table_of self.new
            ≡ without_told (λ q. list_any (λ a. query_eq a.question q) attempted.now) (table_of self.old) }
    {
        self.ahead.retain(|_, ahead| {
            let_go_of(ahead, attempted);
            true
        });
    }

    // Nothing is asked ahead of the look-up of a number any more. Who asks is to be forgotten.
    pub(crate) fn drop_ahead(&mut self, number: u64)
        requires { HasRoomToForget self.old }
        ensures { DropsAhead number (table_of self.old) (table_of self.new) }
    {
        if let Some(asker) = asker_ahead(self.ahead.get(&number)) {
            self.to_forget.push_back_reserved(asker);
        }
        drop(self.ahead.swap_remove(&number));
    }

    // ---- what is forgotten

    // The look-up of a number is forgotten, with its asker and with what is asked ahead of it. Tells whether there was
    // one.
    pub(crate) fn forget(&mut self, gone: u64) -> bool
        requires { HasRoomToForget self.old }
        ensures told { result ≡ is_some (held_at gone (table_of self.old)) }
        ensures is_forgotten { IsForgotten gone (table_of self.old) (table_of self.new) }
    {
        self.drop_ahead(gone);
        self.remove_own_asker(gone);
        forget(&mut self.lookups, gone)
    }

    // The asker of the look-up of a number leaves the table, where it has one.
    fn remove_own_asker(&mut self, number: u64)
        ensures same { table_of self.new ≡ record (table_of self.old) {
          askers = askers_without (asker_of (held_at number (table_of self.old))) self.old.askers.entries;
        } }
    {
        if let Some(asker) = asker_of(self.lookups.get(&number)) {
            self.remove_asker(asker.number);
        }
    }

    // ---- queues

    pub(crate) fn first_to_forget(&self) -> Option<Asker>
        ensures { result ≡ slice_get self.now.to_forget.items 0 }
    {
        self.to_forget.front().copied()
    }

    // The first asker that is to be forgotten is.
    pub(crate) fn pop_to_forget(&mut self, asker: u64)
        ensures { table_of self.new ≡ first_forgotten (without_asker asker (table_of self.old)) }
    {
        self.remove_asker(asker);
        self.to_forget.pop_front();
    }

    pub(crate) fn first_to_ask(&self) -> Option<u64>
        ensures { result ≡ slice_get self.now.to_ask.items 0 }
    {
        self.to_ask.front().copied()
    }

    pub(crate) fn pop_to_ask(&mut self)
        ensures popped { table_of self.new ≡ first_asked (table_of self.old) }
        ensures room { HasRoomToAsk self.old → HasRoomToAsk self.new }
    {
        self.to_ask.pop_front();
    }

    pub(crate) fn first_to_announce(&self) -> Option<u64>
        ensures { result ≡ slice_get self.now.to_announce.items 0 }
    {
        self.to_announce.front().copied()
    }

    // The first that is to be announced leaves the queue. Tells whether it is done and was not announced; then nothing is
    // asked ahead of it any more.
    pub(crate) fn announce(&mut self, number: u64) -> bool
        requires { HasRoomToForget self.old }
        ensures told { result ≡ is_unannounced (held_at number (table_of self.old)) }
        ensures done { OnTrue result (IsAnnounced number (table_of self.old) (table_of self.new)) }
        ensures passed { OnFalse result (table_of self.new ≡ first_announced (table_of self.old)) }
    {
        self.to_announce.pop_front();
        if !is_unannounced(self.lookups.get(&number)) {
            return false;
        }
        if let Some(lookup) = self.lookups.get_mut(&number) {
            announce(lookup);
        }
        self.drop_ahead(number);
        true
    }
}

// What is asked ahead of the look-up of a number has this place, or none.
fn place(places: &mut IndexMap<u64, Ahead>, number: u64, ahead: Option<Ahead>)
    requires { 0 < spare places.old }
    ensures { PutsUnder number ahead places.old.entries places.new.entries }
{
    match ahead {
        Some(ahead) => drop(places.insert(number, ahead)),
        None => drop(places.swap_remove(&number)),
    }
}

// A look-up stands in its queue.
fn push(
    to_ask: &mut VecDeque<u64>,
    to_announce: &mut VecDeque<u64>,
    number: u64,
    lookup: &NetworkLookup,
)
    requires to_ask { deque_len to_ask.old < deque_capacity to_ask.old }
    requires to_announce { deque_len to_announce.old < deque_capacity to_announce.old }
    ensures to_ask { to_ask.new.items ≡ to_ask_with number lookup.now to_ask.old.items }
    ensures to_announce { to_announce.new.items ≡ to_announce_with number lookup.now to_announce.old.items }
{
    match lookup {
        NetworkLookup::Asks(_) => to_ask.push_back_reserved(number),
        NetworkLookup::Done {
            announced: false,
            ..
        } => to_announce.push_back_reserved(number),
        _ => {}
    }
}

//! What is done with the transaction that is worked on.
ghost use Rattle.std.specs.Prelude.{◌≡◌, ◌==◌, [], position, None, Some, IfOk, OnOk, OnErr};
ghost use Rattle.std.specs.Option.{is_some, option_map, option_map_or, option_and_then};
ghost use Rattle.hickory_resolver_servers.specs.Order.{IsOrder};
ghost use Rattle.hickory_resolver_steps.specs.Ending.{ended_of, try_at_place, channels_without, without_first};
ghost use Rattle.hickory_resolver_flights.specs.Flights.{changed};
ghost use Rattle.hickory_resolver_transactions.specs.Transaction.{freed, places_left, wanted};
ghost use Rattle.hickory_resolver_traffic.specs.Groups.{list_at, list_in};
ghost use Rattle.hickory_resolver_traffic.specs.Inbox.{first_message, first_failure};
ghost use Rattle.hickory_resolver_traffic.specs.Doing.{Scene, id_of, act_on, value_of_act, with_to_do, after_heard, hear_of, heard_of_first, hears_first, hears, is_stream_kind, is_stream, broken, doubted, doubts_first, doubts, after_failed, fails_on, fails, stalls_on, stalls, idle_until, leaving_at, leave_at, closed_if, closed_at, one_freed, freed_if, leaves, is_on, place_on, after_quit, quits_at, quits, closed_by_quitting, expires, after_free, frees, draws, gives_up, blocks, outgoing_of, is_opening, freed_after, with_outgoing, sends, dates, round_of, with_probe, with_round_parts, in_order_of, probed_lists, IsRound, BeginsWith, BeginsRoundIn, IsDone, closed_by};

use crate::acting::{ActedParts, ServerAct, act, later};
use crate::choices::IDLE_FOR;
use crate::doing::Doing;
use crate::entry::{Current, ToDo};
use crate::groups::{GroupList, Lists};
use crate::inbox::{ChannelFailure, Failure};
use crate::traffic::{Outgoing, Traffic};
use hickory_resolver_channels::{ChannelKind, Channels};
use hickory_resolver_config::ServerOrderingStrategy;
use hickory_resolver_flights::Heard;
use hickory_resolver_servers::RoundStart;
use hickory_resolver_steps::{Ended, Flying, Sending, SentTry};
use hickory_resolver_tries::head::head_at;
use std::alloc::{AllocError, Global};

// The number in a header, 0 where there is none.
pub(crate) fn id_of(octets: &[u8]) -> u16
    ensures { result ≡ id_of octets.now }
{
    match head_at(octets) {
        Some(head) => head.id,
        None => 0,
    }
}

fn is_stream_kind(kind: ChannelKind) -> bool
    ensures { result ≡ is_stream_kind kind }
{
    match kind {
        ChannelKind::Datagram => false,
        ChannelKind::Stream => true,
    }
}

pub(crate) fn is_stream(channels: &Channels, channel: u64) -> bool
    ensures { result ≡ is_stream channel channels.now }
{
    match channels.channel(channel) {
        Some(held) => is_stream_kind(held.kind),
        None => false,
    }
}

pub(crate) fn broken(channel: u64) -> ChannelFailure
    ensures { result ≡ broken channel }
{
    ChannelFailure {
        channel,
        why: Failure::Closed,
    }
}

// Takes the try of a place off its channel, where there is one. A refused call changes nothing.
fn end_at(
    channels: &mut Channels,
    flying: &mut Flying,
    place: usize,
    until: u64,
) -> Result<Option<Ended>, AllocError>
    ensures ended { IfOk result (λ ended. ended ≡ option_map (ended_of channels.old) (try_at_place flying.old place)) }
    ensures channels { OnOk result (channels.new
        ≡ option_map_or (channels_without until channels.old) (try_at_place flying.old place) channels.old) }
    ensures flying { OnOk result (flying.new
        ≡ option_map_or (λ one. without_first flying.old place) (try_at_place flying.old place) flying.old) }
    ensures err { OnErr result (channels.new ≡ channels.old) }
    ensures unended { OnErr result (flying.new ≡ flying.old) }
{
    if place >= flying.tries.len() {
        return Ok(None);
    }
    let one = flying.tries[place];
    let is_closed = channels.leave(one.channel, one.id, until)?;
    flying.tries.remove(place);
    Ok(Some(Ended {
        channel: one.channel,
        is_closed,
    }))
}

fn closed_if(ended: Option<Ended>) -> Option<u64>
    ensures { result ≡ option_map_or closed_if ended None }
{
    match ended {
        Some(ended) if ended.is_closed => Some(ended.channel),
        _ => None,
    }
}

// A channel is free for the first that waits for one; whether something is to be sent then.
fn goes_on_freed(flying: &mut Flying) -> bool
    ensures wants { result ≡ is_some (wanted (freed flying.old.flight.transaction)) }
    ensures flying { flying.new ≡ record flying.old { flight = changed freed flying.old.flight } }
{
    flying.flight.freed();
    flying.flight.transaction().wanted().is_some()
}

fn place_of(tries: &[SentTry], channel: u64) -> Option<usize>
    ensures { result ≡ position (is_on channel) tries.now }
{
    tries.iter().position(|one| one.channel == channel)
}

// Begins a round with these servers, in an order of those that are left. A refused call changes nothing.
fn begin_with(
    held: &mut GroupList,
    flying: &mut Flying,
    alloc: Global,
    strategy: ServerOrderingStrategy,
    round: &RoundStart,
) -> Result<(), AllocError>
    ensures begun { OnOk result (IsRound strategy round.now held.old flying.old flying.new) }
    ensures probed { OnOk result (held.new
        ≡ with_probe strategy round.now (places_left flying.old.flight.transaction) held.old) }
    ensures err { OnErr result (held.new ≡ held.old) }
    ensures unbegun { OnErr result (flying.new ≡ flying.old) }
{
    let left = flying.flight.transaction().places_left(alloc)?;
    let order = held.servers.order(alloc, strategy, round, &left)?;
    flying.flight.begin_round(order);
    Ok(())
}

// The same with the servers of a list, where there is such a list.
fn begin_round(
    lists: &mut Lists,
    flying: &mut Flying,
    alloc: Global,
    strategy: ServerOrderingStrategy,
    round: &RoundStart,
    list: u64,
) -> Result<(), AllocError>
    ensures begun { OnOk result
        (BeginsWith strategy round.now (list_in list lists.old.entries) flying.old flying.new) }
    ensures probed { OnOk result (lists.new.entries
        ≡ probed_lists strategy round.now list flying.old lists.old.entries) }
    ensures err { OnErr result (lists.new.entries ≡ lists.old.entries) }
    ensures unbegun { OnErr result (flying.new ≡ flying.old) }
{
    match lists.get_mut(&list) {
        Some(held) => begin_with(held, flying, alloc, strategy, round),
        None => Ok(()),
    }
}

impl Traffic {
    // Something with the servers of its list. A refused call changes nothing.
    fn act_on(&mut self, current: &mut Current, what: ServerAct) -> Result<ActedParts, AllocError>
        ensures value { IfOk result (λ v. v
            ≡ value_of_act what [] (record { traffic = self.old; current = current.old })) }
        ensures ok { OnOk result (record { traffic = self.new; current = current.new }
            ≡ act_on what [] (record { traffic = self.old; current = current.old })) }
        ensures err { OnErr result (self.new ≡ self.old) }
        ensures unchanged { OnErr result (current.new ≡ current.old) }
    {
        let moment = self.moment();
        let list = current.entry.parts.asked.0;
        act(
            &mut self.shared,
            &mut self.groups.lists,
            &mut current.entry.parts.flying,
            self.alloc,
            what,
            current.number,
            &moment,
            &[],
            list,
        )
    }

    // The same with the octets of the first message, where there is one.
    fn hear_message(&mut self, current: &mut Current) -> Result<Option<Heard>, AllocError>
        ensures told { IfOk result (λ heard. heard
            ≡ heard_of_first (record { traffic = self.old; current = current.old })) }
        ensures ok { OnOk result (record { traffic = self.new; current = current.new }
            ≡ hears_first (record { traffic = self.old; current = current.old })) }
        ensures err { OnErr result (self.new ≡ self.old) }
        ensures unchanged { OnErr result (current.new ≡ current.old) }
    {
        let moment = self.moment();
        let Some(message) = self.inbox.first_message() else {
            return Ok(None);
        };
        let what = ServerAct::Hear(message.channel, id_of(&message.octets));
        let list = current.entry.parts.asked.0;
        let acted = act(
            &mut self.shared,
            &mut self.groups.lists,
            &mut current.entry.parts.flying,
            self.alloc,
            what,
            current.number,
            &moment,
            &message.octets,
            list,
        )?;
        Ok(Some(acted.heard))
    }

    fn hear(&mut self, current: &mut Current) -> Result<(), AllocError>
        ensures ok { OnOk result (record { traffic = self.new; current = current.new }
            ≡ hears (record { traffic = self.old; current = current.old })) }
        ensures err { OnErr result (self.new ≡ self.old) }
        ensures unchanged { OnErr result (current.new ≡ current.old) }
    {
        match self.hear_message(current)? {
            None => current.to_do = ToDo::GoOn,
            Some(Heard::Nothing) => current.to_do = ToDo::Doubt,
            Some(_) => {
                current.to_do = ToDo::GoOn;
                self.inbox.pop_message();
            }
        }
        Ok(())
    }

    // Nothing of the first message is believed: it is let go, and a stream is broken. A refused call changes nothing.
    pub(crate) fn doubt(&mut self) -> Result<(), AllocError>
        ensures ok { OnOk result (self.new ≡ doubts_first self.old) }
        ensures err { OnErr result (self.new ≡ self.old) }
    {
        let Some(message) = self.inbox.first_message() else {
            return Ok(());
        };
        let channel = message.channel;
        if is_stream(&self.shared.channels, channel) {
            self.inbox.push_failure(broken(channel))?;
        }
        self.inbox.pop_message();
        Ok(())
    }

    fn fail_on(&mut self, current: &mut Current) -> Result<(), AllocError>
        ensures ok { OnOk result (record { traffic = self.new; current = current.new }
            ≡ fails (record { traffic = self.old; current = current.old })) }
        ensures err { OnErr result (self.new ≡ self.old) }
        ensures unchanged { OnErr result (current.new ≡ current.old) }
    {
        let Some(failure) = self.inbox.first_failure() else {
            current.to_do = ToDo::GoOn;
            return Ok(());
        };
        let is_stream = is_stream(&self.shared.channels, failure.channel);
        drop(self.act_on(current, ServerAct::Fail(failure.channel))?);
        if is_stream {
            current.to_do = ToDo::Quit;
        } else {
            current.to_do = ToDo::GoOn;
            self.inbox.pop_failure();
        }
        Ok(())
    }

    fn stall(&mut self, current: &mut Current) -> Result<(), AllocError>
        ensures ok { OnOk result (record { traffic = self.new; current = current.new }
            ≡ stalls (record { traffic = self.old; current = current.old })) }
        ensures err { OnErr result (self.new ≡ self.old) }
        ensures unchanged { OnErr result (current.new ≡ current.old) }
    {
        let Some(failure) = self.inbox.first_failure() else {
            current.to_do = ToDo::GoOn;
            return Ok(());
        };
        self.table.block(current.number)?;
        current.entry.parts.flying.flight.blocked(failure.channel);
        current.to_do = ToDo::Quit;
        Ok(())
    }

    // The try of a place leaves its channel, which may be closed by that.
    fn leave_at(&mut self, current: &mut Current, place: usize) -> Result<Option<u64>, AllocError>
        ensures told { IfOk result (λ closed. closed
            ≡ closed_at place (record { traffic = self.old; current = current.old })) }
        ensures ok { OnOk result (record { traffic = self.new; current = current.new }
            ≡ leave_at place (record { traffic = self.old; current = current.old })) }
        ensures err { OnErr result (self.new ≡ self.old) }
        ensures unchanged { OnErr result (current.new ≡ current.old) }
    {
        let until = later(self.clock, IDLE_FOR);
        let ended = end_at(
            &mut self.shared.channels,
            &mut current.entry.parts.flying,
            place,
            until,
        )?;
        Ok(closed_if(ended))
    }

    // A channel more was closed, where something waits for one.
    pub(crate) fn count_freed(&mut self)
        ensures { self.new ≡ one_freed self.old }
    {
        if self.table.first_blocked().is_some() {
            self.freed = self.freed.saturating_add(1);
        }
    }

    fn leave(&mut self, current: &mut Current, place: usize) -> Result<Option<u64>, AllocError>
        ensures told { IfOk result (λ closed. closed
            ≡ closed_at place (record { traffic = self.old; current = current.old })) }
        ensures ok { OnOk result (record { traffic = self.new; current = current.new }
            ≡ leaves place (record { traffic = self.old; current = current.old })) }
        ensures err { OnErr result (self.new ≡ self.old) }
        ensures unchanged { OnErr result (current.new ≡ current.old) }
    {
        let closed = self.leave_at(current, place)?;
        if closed.is_some() {
            self.count_freed();
        }
        Ok(closed)
    }

    fn quit(&mut self, current: &mut Current) -> Result<Option<u64>, AllocError>
        ensures told { IfOk result (λ closed. closed
            ≡ closed_by_quitting (record { traffic = self.old; current = current.old })) }
        ensures ok { OnOk result (record { traffic = self.new; current = current.new }
            ≡ quits (record { traffic = self.old; current = current.old })) }
        ensures err { OnErr result (self.new ≡ self.old) }
        ensures unchanged { OnErr result (current.new ≡ current.old) }
    {
        let Some(place) = self.place_on(current) else {
            current.to_do = ToDo::PutBack;
            return Ok(None);
        };
        let closed = self.leave_at(current, place)?;
        if closed.is_some() {
            self.inbox.pop_failure();
        }
        current.to_do = ToDo::PutBack;
        Ok(closed)
    }

    // The place of its try on the first channel that failed.
    fn place_on(&self, current: &Current) -> Option<usize>
        ensures { result ≡ place_on (record { traffic = self.now; current = current.now }) }
    {
        match self.inbox.first_failure() {
            Some(failure) => place_of(&current.entry.parts.flying.tries, failure.channel),
            None => None,
        }
    }

    fn free(&mut self, current: &mut Current)
        ensures { record { traffic = self.new; current = current.new }
            ≡ frees (record { traffic = self.old; current = current.old }) }
    {
        current.to_do = ToDo::GoOn;
        if !goes_on_freed(&mut current.entry.parts.flying) {
            self.table.unblock(current.number);
        }
    }

    fn draw(&mut self, current: &mut Current)
        ensures { record { traffic = self.new; current = current.new }
            ≡ draws (record { traffic = self.old; current = current.old }) }
    {
        current.entry.parts.place = Some(self.shared.draws.number() as usize);
    }

    fn begin_round(&mut self, current: &mut Current, place: usize) -> Result<(), AllocError>
        ensures begun { OnOk result (BeginsWith self.old.rules.strategy
            (round_of place (record { traffic = self.old; current = current.old }))
            (list_at current.old.entry.asked.0 self.old.groups) current.old.entry.flying current.new.entry.flying) }
        ensures ok { OnOk result (record { traffic = self.new; current = current.new }
            ≡ with_round_parts place (record { traffic = self.old; current = current.old }) current.new.entry.flying) }
        ensures err { OnErr result (self.new ≡ self.old) }
        ensures unchanged { OnErr result (current.new ≡ current.old) }
    {
        let round = RoundStart {
            transaction: current.number,
            place,
            moment: self.clock,
        };
        let list = current.entry.parts.asked.0;
        begin_round(
            &mut self.groups.lists,
            &mut current.entry.parts.flying,
            self.alloc,
            self.rules.strategy,
            &round,
            list,
        )
    }

    fn send(&mut self, current: &mut Current) -> Result<(), AllocError>
        ensures ok { OnOk result (record { traffic = self.new; current = current.new }
            ≡ sends (record { traffic = self.old; current = current.old })) }
        ensures err { OnErr result (self.new ≡ self.old) }
        ensures unchanged { OnErr result (current.new ≡ current.old) }
    {
        let acted = self.act_on(current, ServerAct::Send)?;
        self.freed = freed_after(&acted.sending, self.freed);
        self.outgoing = outgoing_of(current.entry.parts.asked.0, acted.sending);
        Ok(())
    }

    fn date(&mut self, current: &mut Current, due: Option<u64>) -> Result<(), AllocError>
        ensures ok { OnOk result (record { traffic = self.new; current = current.new }
            ≡ dates due (record { traffic = self.old; current = current.old })) }
        ensures err { OnErr result (self.new ≡ self.old) }
        ensures unchanged { OnErr result (current.new ≡ current.old) }
    {
        self.table
            .redate(current.number, current.entry.parts.due, due)?;
        current.entry.parts.due = due;
        Ok(())
    }

    /// Does this with the transaction that is worked on, and answers the channel that is closed by it, if one is. A
    /// refused call changes nothing.
    pub fn carry_out(
        &mut self,
        what: Doing,
        current: &mut Current,
    ) -> Result<Option<u64>, AllocError>
        ensures closed { IfOk result (λ channel.
            channel ≡ closed_by what (record { traffic = self.old; current = current.old })) }
        ensures done { OnOk result (IsDone what (record { traffic = self.old; current = current.old })
            (record { traffic = self.new; current = current.new })) }
        ensures err { OnErr result (self.new ≡ self.old) }
        ensures unchanged { OnErr result (current.new ≡ current.old) }
    {
        match what {
            Doing::Leaves(place) => return self.leave(current, place),
            Doing::Quits => return self.quit(current),
            Doing::Hears => self.hear(current)?,
            Doing::Doubts => {
                self.doubt()?;
                current.to_do = ToDo::GoOn;
            }
            Doing::Stalls => self.stall(current)?,
            Doing::Fails => self.fail_on(current)?,
            Doing::Expires => {
                drop(self.act_on(current, ServerAct::Expire)?);
                current.to_do = ToDo::GoOn;
            }
            Doing::Frees => self.free(current),
            Doing::Draws => self.draw(current),
            Doing::BeginsRound(place) => self.begin_round(current, place)?,
            Doing::GivesUp => current.entry.parts.flying.flight.give_up_oldest(),
            Doing::Blocks => self.table.block(current.number)?,
            Doing::Sends => self.send(current)?,
            Doing::Dates(due) => self.date(current, due)?,
            Doing::PutsBack | Doing::Refused | Doing::Ends | Doing::Rests => {}
        }
        Ok(None)
    }
}

fn is_opening(sending: &Option<Sending>) -> bool
    ensures { result ≡ is_opening sending.now }
{
    match sending {
        Some(sending) => sending.is_new,
        None => false,
    }
}

// How many channels that came free are left, where this is sent.
fn freed_after(sending: &Option<Sending>, freed: u64) -> u64
    ensures { result ≡ freed_after sending.now freed }
{
    if is_opening(sending) {
        freed.saturating_sub(1)
    } else {
        freed
    }
}

fn outgoing_of(list: u64, sending: Option<Sending>) -> Option<Outgoing>
    ensures { result ≡ option_map (outgoing_of list) sending }
{
    match sending {
        Some(sending) => Some(Outgoing { list, sending }),
        None => None,
    }
}

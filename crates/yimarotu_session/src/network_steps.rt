//! The steps of a session with a network.
ghost use Rattle.std.specs.Prelude.{◌≡◌, ◌<◌, IfOk, None, OnErr, OnOk, Some, length};
ghost use Rattle.std.specs.Option.{option_map_or};
ghost use Rattle.hickory_resolver_pool.specs.Over.{IsFault};
ghost use Rattle.hickory_resolver_pool.specs.Pool.{after_asking, asking_told, list_of, settings_for};
ghost use Rattle.hickory_resolver_theorems.specs.ResumingCalls.{WaitingCallValue};
ghost use Rattle.hickory_resolver_tries.specs.Question.{question_of};
ghost use Rattle.yimarotu_session.specs.LookupTables.{HasRoomToAsk, held_at, table_of};
ghost use Rattle.yimarotu_session.specs.Messages.{whole_query};
ghost use Rattle.yimarotu_session.specs.NetworkSessions.{TellingValue, forgotten_by_pool};
ghost use Rattle.yimarotu_session.specs.NetworkSteps.{Announces, AsksAhead, AsksFor, AsksIf, AsksOther, AsksOwn, AsksPool, AsksSecond, IsAnswered, IsAskedAhead, SessionSteps, StepsPool, Tells, TellsAhead, TellsAsker, TellsLookup, TellsOther, action_of, forgotten, no_dnssec, one_more};
ghost use Rattle.yimarotu_session.specs.declared.network_lookup.NetworkLookup.TheVariants.{Asks};

use crate::ahead::{Ahead, SecondQuestion, asks_alone, hear_ahead};
use crate::lookup_table::LookupTable;
use crate::network_session::{GROUP, NetworkAction, NetworkResolver, NetworkSession, Pool};
use crate::telling::Telling;
use hickory_proto_core::{DnsRequestOptions, NetError, Outcome, Query};
use hickory_resolver_pool::over::{OVERLOADED, UNREACHABLE};
use hickory_resolver_pool::{Action, Asked, Asker, DnssecOptions};
use std::alloc::AllocError;

// Asking tells the pool no moment: this counts as the latest that was told.
const NO_MOMENT: u64 = 0;

impl NetworkSession {
    /// Does the next step, and answers what the program has to do for it; `None` where nothing is left to be done. Who
    /// asked in a transaction that is over is told first; then who asked ahead of a look-up that is no more is
    /// forgotten, questions are asked, and look-ups that are done are announced, each in the order in which they came
    /// to that; and else the pool does its next step.
    pub fn next_action(&mut self) -> Result<Option<NetworkAction>, AllocError>
        ensures ok { IfOk result (λ action. SessionSteps self.old action self.new) }
        ensures err { OnErr result (self.new ≡ self.old) }
    {
        if self.telling.is_some() {
            self.tell()?;
            return Ok(Some(NetworkAction::Continue));
        }
        if let Some(asker) = self.table.first_to_forget() {
            self.forget(&asker)?;
            return Ok(Some(NetworkAction::Continue));
        }
        if let Some(number) = self.table.first_to_ask() {
            self.ask_for(number)?;
            return Ok(Some(NetworkAction::Continue));
        }
        match self.table.first_to_announce() {
            Some(number) => Ok(Some(self.announce(number)?)),
            None => self.step_pool(),
        }
    }

    // The next of the askers is told. Where all were, the transaction is let go.
    fn tell(&mut self) -> Result<(), AllocError>
        ensures ok { (t : TellingValue) → self.old.telling ≡ Some t → OnOk result (Tells self.old self.new t) }
        ensures err { OnErr result (self.new ≡ self.old) }
    {
        let Some(telling) = &mut self.telling else {
            return Ok(());
        };
        match telling.next_asker() {
            Some(asker) => tell_asker(&mut self.resolver, &mut self.table, telling, &asker),
            None => {
                self.telling = None;
                Ok(())
            }
        }
    }

    // An asker to whom nobody listens any more, the first of those, is forgotten.
    fn forget(&mut self, asker: &Asker) -> Result<(), AllocError>
        ensures ok { OnOk result (self.new ≡ forgotten self.old asker.now) }
        ensures err { OnErr result (self.new ≡ self.old) }
    {
        self.pool.forget(asker)?;
        self.table.pop_to_forget(asker.number);
        Ok(())
    }

    // The look-up of a number asks its question, where it waits to, and else one ahead.
    fn ask_for(&mut self, number: u64) -> Result<(), AllocError>
        ensures ok { OnOk result (AsksFor self.old self.new number) }
        ensures err { OnErr result (self.new ≡ self.old) }
    {
        match self.table.question_to_ask(number)? {
            Some(query) => self.ask_own(number, query),
            None => self.ask_other(number),
        }
    }

    // The look-up of a number, which waits to, asks this question, unless it was asked ahead.
    fn ask_own(&mut self, number: u64, query: Query) -> Result<(), AllocError>
        ensures ok { (w : WaitingCallValue) → held_at number self.old.table ≡ Some (Asks w)
            → query ≡ whole_query w.lookup.hop.query → OnOk result (AsksOwn w number self.old self.new) }
        ensures err { OnErr result (self.new ≡ self.old) }
    {
        self.table.reserve_asker()?;
        match self.table.take_ahead(number, &query) {
            Ahead::Nothing => self.ask(number, query),
            Ahead::Waits(_, asker) => {
                self.table.pop_to_ask();
                self.table.wait_for(number, asker);
                Ok(())
            }
            Ahead::Told(_, outcome) => {
                self.table.pop_to_ask();
                self.table.go_on(&mut self.resolver, number, outcome);
                Ok(())
            }
        }
    }

    // The look-up of a number, which waits to, asks this question of the pool.
    fn ask(&mut self, number: u64, query: Query) -> Result<(), AllocError>
        ensures ok { (w : WaitingCallValue) → held_at number self.old.table ≡ Some (Asks w)
            → query ≡ whole_query w.lookup.hop.query → OnOk result (AsksPool w number self.old self.new) }
        ensures err { OnErr result (self.new ≡ self.old) }
    {
        self.table.reserve_asker()?;
        let options = self.resolver.request_options();
        let asked = ask_pool(&mut self.pool, query, options)?;
        answer(&mut self.resolver, &mut self.table, number, asked);
        Ok(())
    }

    // Ahead of the look-up of a number, whose turn ends, a question is asked, where there is one.
    fn ask_other(&mut self, number: u64) -> Result<(), AllocError>
        ensures ok { OnOk result (AsksOther (held_at number self.old.table) number self.old self.new) }
        ensures err { OnErr result (self.new ≡ self.old) }
    {
        match self.table.question_ahead(&self.resolver, number)? {
            Some(second) => self.ask_second(number, second),
            None => {
                self.table.pop_to_ask();
                Ok(())
            }
        }
    }

    // The question of the second family of the look-up of a number is asked ahead, where a look-up of it alone asks it.
    fn ask_second(&mut self, number: u64, second: SecondQuestion) -> Result<(), AllocError>
        ensures ok { OnOk result (AsksSecond number self.old self.new second) }
        ensures err { OnErr result (self.new ≡ self.old) }
    {
        match asks_alone(&mut self.resolver, &second) {
            Ok(asks) => self.ask_if(asks, number, second),
            Err(AllocError) => Err(AllocError),
        }
    }

    fn ask_if(&mut self, asks: bool, number: u64, second: SecondQuestion) -> Result<(), AllocError>
        ensures ok { OnOk result (AsksIf asks number second self.old self.new) }
        ensures err { OnErr result (self.new ≡ self.old) }
    {
        if asks {
            return self.ask_ahead(number, second);
        }
        self.table.pop_to_ask();
        Ok(())
    }

    // This question is asked ahead of the look-up of a number.
    fn ask_ahead(&mut self, number: u64, second: SecondQuestion) -> Result<(), AllocError>
        ensures ok { OnOk result (AsksAhead number second self.old self.new) }
        ensures err { OnErr result (self.new ≡ self.old) }
    {
        self.table.reserve_asker()?;
        let options = self.resolver.request_options();
        let copy = Clone::clone(&second.query)?;
        let asked = ask_pool(&mut self.pool, copy, options)?;
        answer_ahead(&mut self.table, number, second, asked);
        Ok(())
    }

    // The look-up of a number is done, unless it was cancelled.
    fn announce(&mut self, number: u64) -> Result<NetworkAction, AllocError>
        ensures ok { IfOk result (λ action. Announces self.old (Some action) self.new number) }
        ensures err { OnErr result (self.new ≡ self.old) }
    {
        self.table.reserve_forgetting()?;
        if self.table.announce(number) {
            Ok(NetworkAction::Done(number))
        } else {
            Ok(NetworkAction::Continue)
        }
    }

    // The pool does its next step, where nobody is told.
    fn step_pool(&mut self) -> Result<Option<NetworkAction>, AllocError>
        ensures ok { self.old.telling ≡ None → IfOk result (λ action. StepsPool self.old action self.new) }
        ensures err { OnErr result (self.new ≡ self.old) }
    {
        match self.pool.next_action()? {
            Some(Action::Over(over)) => {
                self.telling = Some(Telling::new(over));
                Ok(Some(NetworkAction::Continue))
            }
            did => Ok(handed_on(did)),
        }
    }
}

// What the program has to do for a step of the pool.
fn handed_on(did: Option<Action>) -> Option<NetworkAction>
    ensures { result ≡ action_of did }
{
    match did {
        None => None,
        Some(Action::Open(opening)) => Some(NetworkAction::Open(opening)),
        Some(Action::Send(sent)) => Some(NetworkAction::Send(sent)),
        Some(Action::Close(channel)) => Some(NetworkAction::Close(channel)),
        Some(Action::Over(_)) => Some(NetworkAction::Continue),
        Some(Action::Continue) => Some(NetworkAction::Continue),
    }
}

// An asker is told what its transaction came to, unless it was forgotten.
fn tell_asker(
    resolver: &mut NetworkResolver,
    table: &mut LookupTable,
    telling: &mut Telling,
    asker: &Asker,
) -> Result<(), AllocError>
    requires { telling.old.told < length telling.old.over.askers }
    ensures told { OnOk result (TellsAsker telling.old.over asker.now resolver.old (table_of table.old) resolver.new
        (table_of table.new)) }
    ensures counted { OnOk result (telling.new ≡ one_more telling.old) }
    ensures resolver { OnErr result (resolver.new ≡ resolver.old) }
    ensures table { OnErr result (table_of table.new ≡ table_of table.old) }
    ensures telling { OnErr result (telling.new ≡ telling.old) }
{
    match table.waits_for(asker) {
        Some(number) => tell_lookup(resolver, table, telling, asker, number)?,
        None => tell_other(resolver, table, telling, asker)?,
    }
    telling.count();
    Ok(())
}

// The look-up that waits for what an asker is told goes on with what its transaction came to.
fn tell_lookup(
    resolver: &mut NetworkResolver,
    table: &mut LookupTable,
    telling: &Telling,
    asker: &Asker,
    number: u64,
) -> Result<(), AllocError>
    ensures told { OnOk result (TellsLookup telling.now.over asker.now resolver.old (table_of table.old) resolver.new
        (table_of table.new) number) }
    ensures resolver { OnErr result (resolver.new ≡ resolver.old) }
    ensures table { OnErr result (table_of table.new ≡ table_of table.old) }
{
    table.reserve_turns()?;
    let outcome = telling.outcome()?;
    table.remove_asker(asker.number);
    table.go_on(resolver, number, outcome);
    Ok(())
}

// What was asked ahead by an asker stays with what its transaction came to, which the resolver hears.
fn tell_other(
    resolver: &mut NetworkResolver,
    table: &mut LookupTable,
    telling: &Telling,
    asker: &Asker,
) -> Result<(), AllocError>
    ensures told { OnOk result (TellsOther telling.now.over asker.now resolver.old (table_of table.old) resolver.new
        (table_of table.new)) }
    ensures resolver { OnErr result (resolver.new ≡ resolver.old) }
    ensures table { OnErr result (table_of table.new ≡ table_of table.old) }
{
    match table.waits_ahead(asker) {
        Some(number) => tell_ahead(resolver, table, telling, asker, number),
        None => Ok(()),
    }
}

fn tell_ahead(
    resolver: &mut NetworkResolver,
    table: &mut LookupTable,
    telling: &Telling,
    asker: &Asker,
    number: u64,
) -> Result<(), AllocError>
    ensures told { OnOk result (TellsAhead telling.now.over asker.now resolver.old (table_of table.old) resolver.new
        (table_of table.new) number) }
    ensures resolver { OnErr result (resolver.new ≡ resolver.old) }
    ensures table { OnErr result (table_of table.new ≡ table_of table.old) }
{
    let outcome = telling.outcome()?;
    match hear_ahead(resolver, table.ahead.get(&number), &outcome) {
        Ok(()) => {
            table.tell_ahead(asker.number, number, outcome);
            Ok(())
        }
        Err(error) => {
            drop(outcome);
            Err(error)
        }
    }
}

// The pool forgets who asks for a look-up, where somebody does.
pub(crate) fn forget_asker(pool: &mut Pool, asker: Option<Asker>) -> Result<(), AllocError>
    ensures ok { OnOk result (pool.new ≡ option_map_or (forgotten_by_pool pool.old) asker pool.old) }
    ensures err { OnErr result (pool.new ≡ pool.old) }
{
    if let Some(asker) = asker {
        pool.forget(&asker)?;
    }
    Ok(())
}

// Asks a question of the pool, whose name is absolute: so memory alone is a reason to refuse it.
fn ask_pool(pool: &mut Pool, query: Query, options: DnsRequestOptions) -> Result<Asked, AllocError>
    ensures told { IfOk result (λ told. told
        ≡ asking_told (list_of 0 pool.old.traffic) (question_of query options no_dnssec) pool.old) }
    ensures ok { OnOk result (pool.new ≡ after_asking (list_of 0 pool.old.traffic)
        (question_of query options no_dnssec) (settings_for pool.old.options options) 0 pool.old) }
    ensures err { OnErr result (pool.new ≡ pool.old) }
{
    let dnssec = DnssecOptions {
        dnssec_ok: false,
        checking_disabled: false,
        authentic_data: false,
    };
    match pool.ask(GROUP, query, options, dnssec, NO_MOMENT) {
        Ok(asked) => Ok(asked),
        Err(_) => Err(AllocError),
    }
}

// The first look-up that waits to ask waits for its asker, and its turn is not over; or it goes on, as the pool
// answered.
fn answer(resolver: &mut NetworkResolver, table: &mut LookupTable, number: u64, asked: Asked)
    requires { HasRoomToAsk table.old }
    ensures { (w : WaitingCallValue) → held_at number (table_of table.old) ≡ Some (Asks w)
        → IsAnswered asked w number resolver.old (table_of table.old) resolver.new (table_of table.new) }
{
    match asked {
        Asked::Asker(asker) => table.wait_for(number, asker),
        Asked::Overloaded => {
            table.pop_to_ask();
            table.go_on(resolver, number, failure(OVERLOADED));
        }
        Asked::NoServers => {
            table.pop_to_ask();
            table.go_on(resolver, number, failure(UNREACHABLE));
        }
    }
}

// What is asked ahead of a look-up waits for its asker, as the pool answered. Its turn is over.
fn answer_ahead(table: &mut LookupTable, number: u64, second: SecondQuestion, asked: Asked)
    requires { HasRoomToAsk table.old }
    ensures { IsAskedAhead asked second number (table_of table.old) (table_of table.new) }
{
    table.pop_to_ask();
    if let Asked::Asker(asker) = asked {
        table.wait_ahead(number, second, asker);
    }
}

// What the core is told by these words.
fn failure(words: &'static str) -> Outcome
    ensures { IsFault words.now result }
{
    Err(NetError::Message(words))
}

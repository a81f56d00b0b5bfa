//! A session of either kind.
ghost use Rattle.std.specs.Prelude.{◌≡◌, Err, IfErr, IfOk, Ok};
ghost use Rattle.yimarotu_embedded.specs.Held.{CancelsIn, ClearsIn, ClearsNameIn, StartsHostIn, StartsNameIn, found_in};

use crate::driven_session::DrivenSession;
use hickory_proto_core::{NetError, RecordType};
use hickory_resolver::Lookup;
use std::alloc::AllocError;
use yimarotu_session::{Session, SessionError};

/// A session of either kind. Moments are milliseconds, of which one that is fed by hand counts whole seconds.
#[derive(Drop)]
pub enum Held {
    /// It is fed by hand.
    Fed(Session),
    /// It asks by itself, and its program is told what to do.
    Driven(DrivenSession),
}

impl Held {
    /// Starts a look-up of records of a type for a name, at a moment, under a number that no other has, and tells
    /// whether it waits; else it is done.
    pub fn start(
        &mut self,
        number: u64,
        name: &str,
        record_type: RecordType,
        now: u64,
    ) -> Result<bool, SessionError>
        ensures { StartsNameIn number name.now record_type now self.old result self.new }
    {
        match self {
            Held::Fed(session) => session.start(number, name, record_type, now / 1000),
            Held::Driven(session) => session.start(number, name, record_type, now),
        }
    }

    /// The same of the addresses of a host.
    pub fn start_ip(&mut self, number: u64, host: &str, now: u64) -> Result<bool, SessionError>
        ensures { StartsHostIn number host.now now self.old result self.new }
    {
        match self {
            Held::Fed(session) => session.start_ip(number, host, now / 1000),
            Held::Driven(session) => session.start_ip(number, host, now),
        }
    }

    /// Forgets the look-up of a number, at a moment, and tells whether there was one. Where memory is refused nothing
    /// changes.
    pub fn cancel(&mut self, number: u64, now: u64) -> Result<bool, AllocError>
        ensures { CancelsIn number now self.old result self.new }
    {
        match self {
            Held::Fed(session) => Ok(session.cancel(number)),
            Held::Driven(session) => session.cancel(number, now),
        }
    }

    /// Drops from the cache what it has for the names that are attempted for this one, of this type.
    pub fn clear_name(&mut self, name: &str, record_type: RecordType) -> Result<(), SessionError>
        ensures { ClearsNameIn name.now record_type self.old result self.new }
    {
        match self {
            Held::Fed(session) => session.clear_name(name, record_type),
            Held::Driven(session) => session.clear_name(name, record_type),
        }
    }

    /// Empties the cache.
    pub fn clear(&mut self)
        ensures { ClearsIn self.old self.new }
    {
        match self {
            Held::Fed(session) => session.clear(),
            Held::Driven(session) => session.clear(),
        }
    }

    /// What the look-up of a number came to.
    pub fn found(&self, number: u64) -> Result<&Result<Lookup, NetError>, SessionError>
        ensures ok { IfOk result (λ found. found_in number self.now ≡ Ok found.now) }
        ensures err { IfErr result (λ error. found_in number self.now ≡ Err error) }
    {
        match self {
            Held::Fed(session) => session.found(number),
            Held::Driven(session) => session.found(number),
        }
    }
}

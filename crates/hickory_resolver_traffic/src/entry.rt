//! A transaction, and the one that is worked on.
use hickory_resolver_steps::Flying;
use hickory_resolver_tries::PoolQuestion;
use std::marker::Model;

/// A transaction, in flight or waiting for a place. Its parts lie in a place of their own, so that to hand it on from
/// step to step moves an address and not the whole of it.
#[derive(Drop)]
pub struct Entry {
    /// Its parts.
    pub parts: Box<EntryParts>,
}

impl Model for Entry {
    ghost use Rattle.hickory_resolver_traffic.specs.Table.{EntryState};

    ghost Value = { EntryState };

    ghost view = { λ e. record {
      asked = e.parts.value.asked;
      flying = e.parts.value.flying;
      place = e.parts.value.place;
      due = e.parts.value.due;
    } };
}

/// What is kept of a transaction.
#[derive(Drop)]
pub struct EntryParts {
    /// The number of the list of its servers, and what is asked of them.
    pub asked: (u64, PoolQuestion),
    /// Its question in flight.
    pub flying: Flying,
    /// The place from which its rounds go in turn, once it is drawn.
    pub place: Option<usize>,
    /// The moment under which it stands among the deadlines.
    pub due: Option<u64>,
}

/// What a transaction is taken up for.
#[derive(Clone, Copy, Debug, PartialEq, Eq)]
pub enum ToDo {
    /// It goes on.
    GoOn,
    /// The first message that came is for it.
    Hear,
    /// Nothing of it was heard.
    Doubt,
    /// The first channel that failed has a try of it.
    Fail,
    /// Its try is to go off that channel.
    Quit,
    /// It goes back to those that are ready.
    PutBack,
    /// Its deadline has come.
    Expire,
    /// A channel is free.
    Free,
    /// It has waited for a place for too long.
    Refuse,
}

/// The transaction that is worked on.
#[derive(Drop)]
pub struct Current {
    /// Its number.
    pub number: u64,
    /// For what it was taken up.
    pub to_do: ToDo,
    /// The transaction.
    pub entry: Entry,
}

impl Model for Current {
    ghost use Rattle.hickory_resolver_traffic.specs.Table.{CurrentState};

    ghost Value = { CurrentState };

    ghost view = { λ c. record { number = c.number; to_do = c.to_do; entry = c.entry } };
}

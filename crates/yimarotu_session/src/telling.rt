//! A transaction that is over, whose askers are told one after another.
ghost use Rattle.std.specs.Prelude.{◌≡◌, ◌<◌, IfOk, length, slice_get};
ghost use Rattle.std.specs.Option.{option_map};
ghost use Rattle.hickory_resolver_pool.specs.Over.{IsCoreOutcome};
ghost use Rattle.yimarotu_session.specs.NetworkSteps.{asker_with, first_telling, one_more};

use hickory_proto_core::{NetError, Outcome};
use hickory_resolver_pool::{Asker, Over};
use std::alloc::AllocError;
use std::marker::Model;

/// A transaction that is over, and how many of its askers were told.
#[derive(Drop)]
pub(crate) struct Telling {
    over: Over,
    told: usize,
}

impl Model for Telling {
    ghost use Rattle.yimarotu_session.specs.NetworkSessions.{TellingValue};

    ghost Value = { TellingValue };

    ghost view = { λ t. record { over = t.over; told = t.told } };
}

impl Telling {
    // Nobody was told of it.
    pub(crate) fn new(over: Over) -> Telling
        ensures { result ≡ first_telling over }
    {
        Telling { over, told: 0 }
    }

    // The asker that is told next.
    pub(crate) fn next_asker(&self) -> Option<Asker>
        ensures { result ≡ option_map (asker_with self.now.over) (slice_get self.now.over.askers self.now.told) }
    {
        match self.over.askers().get(self.told) {
            Some(number) => Some(Asker {
                transaction: self.over.transaction(),
                number: *number,
            }),
            None => None,
        }
    }

    // What its askers are told. Where that finds no memory to be copied it is refused.
    pub(crate) fn outcome(&self) -> Result<Outcome, AllocError>
        ensures { IfOk result (λ outcome. IsCoreOutcome self.now.over outcome) }
    {
        match self.over.dns_outcome() {
            Err(NetError::OutOfMemory) => Err(AllocError),
            outcome => Ok(outcome),
        }
    }

    // One more was told.
    pub(crate) fn count(&mut self)
        requires { self.old.told < length self.old.over.askers }
        ensures { self.new ≡ one_more self.old }
    {
        if self.told < self.over.askers().len() {
            self.told += 1;
        }
    }
}

//! Outcomes as a cache keeps them.
ghost use Rattle.std.specs.Prelude.{◌≡◌, ◌⊎◌, Ok, Err, IfOk};
ghost use Rattle.hickory_resolver_model.specs.Cache.{aged_outcome};

use crate::address_answer::{AddressAnswer, single_address};
use crate::aging::{error_aged, message_aged};
use hickory_proto_core::{Message, NetError};
use std::alloc::{AllocError, Global};
use std::marker::Model;

/// An outcome in a form that is short and takes few pieces of memory: an answer of one address stands in it without
/// its lists, and an error, which is long, in a box.
#[derive(Drop)]
pub struct KeptOutcome {
    form: Form,
}

#[derive(Drop)]
enum Form {
    Address(AddressAnswer),
    Answer(Message),
    Failure(Box<NetError>),
}

impl Model for KeptOutcome {
    ghost use Rattle.hickory_proto_core.specs.Handles.{OutcomeValue};

    ghost Value = { OutcomeValue };

    ghost use Rattle.hickory_resolver_cache.specs.Outcome.{outcome_of};

    ghost view = { λ o. outcome_of o.form };
}

impl KeptOutcome {
    // An answer as it is kept.
    pub fn answer(message: Message) -> KeptOutcome
        ensures { result ≡ Ok message }
    {
        let form = match single_address(&message) {
            Some(address) => Form::Address(AddressAnswer::of(message, address)),
            None => Form::Answer(message),
        };
        KeptOutcome { form }
    }

    // An error as it is kept, moved into a box.
    pub fn failure(alloc: Global, error: NetError) -> Result<KeptOutcome, AllocError>
        ensures { IfOk result (λ kept. kept ≡ Err error) }
    {
        Ok(KeptOutcome {
            form: Form::Failure(Box::new(alloc, error)?),
        })
    }

    // A copy whose times to live are lower by these seconds.
    pub fn aged(&self, alloc: Global, seconds: u32) -> Result<Message, NetError>
        ensures { (result ≡ aged_outcome seconds self.now) ⊎ (result ≡ Err NetError.OutOfMemory) }
    {
        match &self.form {
            Form::Address(answer) => Ok(answer.aged(alloc, seconds)?),
            Form::Answer(message) => Ok(message_aged(message, seconds)?),
            Form::Failure(error) => Err(error_aged(error, seconds)?),
        }
    }
}

//! What a cache keeps of an entry beside its question.
ghost use Rattle.std.specs.Prelude.{◌≡◌, ◌⊎◌};
ghost use Rattle.hickory_resolver_model.specs.Cache.{age, aged_outcome};

use crate::aging::age;
use crate::outcome::KeptOutcome;
use hickory_proto_core::{Message, NetError};
use std::alloc::Global;

/// When an outcome was stored and until when it is current (seconds), the number of its store, what the entry weighs
/// (octets; 0 in a cache whose octets are not bounded), and the outcome.
#[derive(Drop)]
pub struct Kept {
    pub original_time: u64,
    pub valid_until: u64,
    pub number: u64,
    pub weight: u64,
    pub result: KeptOutcome,
}

impl Kept {
    // What the entry gives at a moment: a copy whose times to live have counted down.
    pub fn aged_result(&self, alloc: Global, now: u64) -> Result<Message, NetError>
        ensures { (result ≡ aged_outcome (age self.now.original_time now) self.now.result)
            ⊎ (result ≡ Err NetError.OutOfMemory) }
    {
        self.result.aged(alloc, age(self.original_time, now))
    }
}

//! Records as they were received.
ghost use Rattle.std.specs.Prelude.{◌≡◌, ◌<◌, ◌^◌};
ghost use Rattle.trace_judge.specs.Trace.{milliseconds_of};
ghost use Rattle.hickory_proto_core.specs.Records.{data_of, data_eq};
ghost use Rattle.trace_judge.specs.Receptions.{deadline, grace, is_same_record, reach};

use crate::event::Moment;
use hickory_proto_core::{RData, Record};

/// A record that was received.
#[derive(Debug, Drop)]
pub struct Reception {
    pub moment: Moment,
    pub found: Record,
}

impl Reception {
    /// The moment, in milliseconds, at which the record runs out.
    pub fn deadline(&self) -> u64
        ensures value { result ≡ deadline self.now }
        ensures bound { result < 2 ^ 43 }
    {
        self.moment.in_milliseconds() + 1000 * u64::from(self.found.ttl)
    }
}

/// Whether records are the same, but for their TTLs.
pub fn is_same_record(a: &Record, b: &Record) -> bool
    ensures { result ≡ is_same_record a.now b.now }
{
    a.name == b.name && a.dns_class == b.dns_class && has_data(&a.rdata, &b.rdata)
}

fn has_data(a: &RData, b: &RData) -> bool
    ensures { result ≡ data_eq (data_of a.now) (data_of b.now) }
{
    a == b
}

/// How far past a deadline counts as at it, in milliseconds.
pub fn grace(slack: u32) -> u64
    ensures value { result ≡ grace slack }
    ensures bound { result < 2 ^ 43 }
{
    1000 * u64::from(slack) + 50
}

/// The moment until which a client keeps what it is told at a moment, both in milliseconds.
pub fn reach(now: Moment, ttl: u32) -> u64
    ensures value { result ≡ reach (milliseconds_of now) ttl }
    ensures bound { result < 2 ^ 43 }
{
    now.in_milliseconds() + 1000 * u64::from(ttl)
}

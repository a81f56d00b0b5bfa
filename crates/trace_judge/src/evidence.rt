//! What a telling is judged by.

use crate::denied::Denials;
use crate::event::Moment;
use crate::gaps::Gaps;
use crate::latest::LatestMoments;
use crate::sightings::Sightings;
use hickory_proto_core::{Name, Record};
use std::alloc::Global;
use std::marker::Model;
use synthesis::Prefix;

/// What a telling is judged by.
#[derive(Drop)]
pub struct Evidence<'a> {
    pub alloc: Global,
    /// How many seconds are allowed for rounding.
    pub slack: u32,
    /// The moment, in milliseconds, before which all is forgotten.
    pub oldest: u64,
    /// The zones that the resolver answers for by itself.
    pub local: &'a [Name],
    /// The records that it has of its own.
    pub own: &'a [Record],
    /// The prefixes in which it makes IPv6 addresses of IPv4 addresses.
    pub dns64: &'a [Prefix],
    /// The first moment of the trace.
    pub start: Moment,
    /// What was received.
    pub seen: &'a Sightings,
    /// What was received of the records that say what is not there.
    pub gaps: &'a Gaps,
    /// When each question was asked last.
    pub asked: &'a LatestMoments,
    /// When each question was answered last.
    pub answered: &'a LatestMoments,
    /// What was denied.
    pub denied: &'a Denials,
}

impl<'a> Model for Evidence<'a> {
    ghost use Rattle.trace_judge.specs.Index.{IndexValue};

    ghost Value = { IndexValue };

    ghost view = { λ e. record {
      slack = e.slack;
      oldest = e.oldest;
      local = e.local.now;
      own = e.own.now;
      dns64 = e.dns64.now;
      start = e.start;
      seen = e.seen.now;
      gaps = e.gaps.now;
      asked = e.asked.now;
      answered = e.answered.now;
      denied = e.denied.now;
    } };
}

//! What a trace says.
ghost use Rattle.std.specs.Prelude.{◌≡◌, ◌<◌, ◌^◌};
ghost use Rattle.trace_judge.specs.Trace.{is_outcome, milliseconds_of};

use hickory_proto_core::{Query, Record, ResponseCode};
use std::marker::Model;

/// A moment of a trace, counted from wherever its clock begins.
#[derive(Clone, Copy, Debug, PartialEq, Eq)]
pub struct Moment {
    pub seconds: u32,
    /// Milliseconds behind the seconds.
    pub milliseconds: u16,
}

impl Moment {
    /// The whole moment, in milliseconds.
    pub fn in_milliseconds(&self) -> u64
        ensures value { result ≡ milliseconds_of self.now }
        ensures bound { result < 2 ^ 42 }
    {
        1000 * u64::from(self.seconds) + u64::from(self.milliseconds)
    }
}

/// A line of a trace, with the records behind it.
#[derive(Debug, Drop)]
pub struct Event {
    pub moment: Moment,
    pub said: Said,
}

/// What a line of a trace says.
#[derive(Debug, Drop)]
pub enum Said {
    /// The resolver asked its upstream.
    Asked(Query),
    /// The resolver received this of its upstream.
    Received(Reply),
    /// The resolver told this to a client.
    Told(Reply),
}

/// A response (RFC 1035, section 4.1), with the question that it answers.
#[derive(Debug, Drop)]
pub struct Reply {
    pub query: Query,
    pub code: ResponseCode,
    /// Whether the response says that it is truncated.
    pub truncated: bool,
    pub answers: Vec<Record>,
    pub authorities: Vec<Record>,
    pub additionals: Vec<Record>,
}

impl Model for Reply {
    ghost use Rattle.trace_judge.specs.Replies.{ReplyValue};

    ghost Value = { ReplyValue };

    ghost view = { λ r. record {
      query = r.query;
      code = r.code;
      truncated = r.truncated;
      answers = r.answers.items;
      authorities = r.authorities.items;
      additionals = r.additionals.items;
    } };
}

/// Whether a code says something of records: NOERROR and NXDOMAIN do (RFC 1035, section 4.1.1).
pub fn is_outcome(code: ResponseCode) -> bool
    ensures { result ≡ is_outcome code }
{
    let code = code.code();
    code == 0 || code == 3
}

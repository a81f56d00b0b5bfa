//! What becomes of a query.
ghost use Rattle.std.specs.Prelude.{◌≡◌};
ghost use Rattle.yimarotu_forwarder.specs.Counting.{answered_as};

/// What becomes of a query.
#[derive(Clone, Copy, Debug, PartialEq, Eq)]
pub enum Answered {
    /// It has its reply, whose octets the forwarder holds.
    Replied,
    /// It waits for what servers say.
    Waits,
    /// It has no reply.
    Dropped,
}

// What becomes of a query, and of what its reply is.
#[derive(Clone, Copy, Debug, PartialEq, Eq)]
pub(crate) enum Outcome {
    // It is told what is kept.
    FromCache,
    // It is told what is known here.
    Local,
    // It is told that the look-up fails.
    Fails,
    // It is refused.
    Refused,
    // It waits for what servers say.
    Waits,
    // It has no reply.
    Dropped,
}

impl Outcome {
    // What a program is told of it.
    pub(crate) fn answered(self) -> Answered
        ensures { result ≡ answered_as self }
    {
        match self {
            Outcome::Waits => Answered::Waits,
            Outcome::Dropped => Answered::Dropped,
            _ => Answered::Replied,
        }
    }
}

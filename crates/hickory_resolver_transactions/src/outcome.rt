//! What a transaction comes to.
ghost use Rattle.std.specs.Prelude.{◌≡◌};
ghost use Rattle.hickory_resolver_transactions.specs.Outcomes.{rank_of, better};

/// What a transaction came to. A number is that of a reply.
#[derive(Clone, Copy, Debug, PartialEq, Eq)]
pub enum Outcome {
    /// This reply is the answer, or the negative answer.
    Reply(u64),
    /// A reply that was cut, and there is no TCP to ask for the rest.
    Cut(u64),
    /// A reply with another code than NOERROR and NXDOMAIN, one that says nothing, or one that is no message.
    Code(u64),
    /// A channel failed, or there is no server.
    Unreachable,
    /// Nothing came in time.
    Timeout,
}

impl Outcome {
    // A negative answer is told before a cut one, and so on.
    fn rank(self) -> u8
        ensures { result ≡ rank_of self }
    {
        match self {
            Outcome::Reply(_) => 0,
            Outcome::Cut(_) => 1,
            Outcome::Code(_) => 2,
            Outcome::Unreachable => 3,
            Outcome::Timeout => 4,
        }
    }
}

/// The better of what is noted and another one; of two of one kind the first.
pub(crate) fn better(noted: Option<Outcome>, new: Outcome) -> Option<Outcome>
    ensures { result ≡ better noted new }
{
    match noted {
        None => Some(new),
        Some(old) => {
            if new.rank() < old.rank() {
                Some(new)
            } else {
                Some(old)
            }
        }
    }
}

//! What octets were to a question in flight.
use hickory_resolver_tries::ReplyOutcome;

/// What octets were to a question in flight.
#[derive(Clone, Copy, Debug, PartialEq, Eq)]
pub enum Heard {
    /// Nothing of it: they change nothing.
    Nothing,
    /// A reply but for letters that were varied.
    OtherLetters,
    /// A header alone that says that OPT is not known.
    OptRefused,
    /// A reply, which comes to this.
    Reply(ReplyOutcome),
}

//! What a reply makes of a look-up.

use whole_replies::KeptReply;

/// What a reply makes of a look-up.
#[derive(Debug, Drop)]
pub enum Heard {
    /// It goes on, with the question that the reply leads to.
    Asks,
    /// The reply is whole.
    Whole(KeptReply),
    /// Too many names are on the way, or too many questions.
    Fails,
}

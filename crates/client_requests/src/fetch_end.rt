//! What a question that was looked up came to.

use failure_replies::FailureReason;
use stored_replies::StoredReply;

/// What a question that was looked up came to.
#[derive(Debug, Drop)]
pub enum FetchEnd {
    /// A reply, as it is stored.
    Reply(StoredReply),
    /// There is none: why.
    Failure(FailureReason),
}

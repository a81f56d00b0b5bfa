//! Why a call of a session did not end well.
use thiserror::Error;

/// Why a call of a session did not end well.
#[derive(Clone, Copy, Debug, PartialEq, Eq, Error)]
pub enum SessionError {
    /// No memory was left.
    #[error("out of memory")]
    OutOfMemory,
    /// Another look-up has this number.
    #[error("number in use")]
    InUse,
    /// No look-up has this number.
    #[error("no such look-up")]
    NoLookup,
    /// The look-up waits for what comes back to its question.
    #[error("look-up waits")]
    Waits,
    /// The look-up is done.
    #[error("look-up is done")]
    IsDone,
}

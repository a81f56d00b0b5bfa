//! Faults of names.
use std::alloc::{AllocError, AllocFailed};
use thiserror::Error;

/// Why a text or a list of labels is no name, or a name stands for no network.
#[derive(Clone, Copy, Debug, PartialEq, Eq, Error)]
pub enum NameError {
    /// A label without bytes (RFC 1035, section 2.3.1).
    #[error("empty label")]
    EmptyLabel,
    /// A label of more than 63 bytes (RFC 1035, section 2.3.4).
    #[error("label too long")]
    LabelTooLong,
    /// A name of more than 255 bytes on the wire (RFC 1035, section 2.3.4).
    #[error("name too long")]
    NameTooLong,
    /// A character that has to be escaped in its place.
    #[error("bad character")]
    BadCharacter,
    /// A backslash that begins no escape (RFC 1035, section 5.1).
    #[error("bad escape")]
    BadEscape,
    /// A name that is no address or network under `in-addr.arpa.` or `ip6.arpa.`.
    #[error("not an arpa name")]
    NotArpa,
    /// No memory was left.
    #[error("out of memory")]
    OutOfMemory,
}

impl<T: Drop> From<AllocFailed<T>> for NameError {
    ghost use Rattle.std.specs.Prelude.{◌≡◌};
    ghost use Rattle.hickory_proto_names.specs.declared.name_error.NameError.TheVariants.{OutOfMemory};

    ghost from_gives = { λ _ e. e ≡ OutOfMemory };

    fn from(_e: AllocFailed<T>) -> NameError {
        NameError::OutOfMemory
    }
}

impl From<AllocError> for NameError {
    ghost use Rattle.std.specs.Prelude.{◌≡◌};
    ghost use Rattle.hickory_proto_names.specs.declared.name_error.NameError.TheVariants.{OutOfMemory};

    ghost from_gives = { λ _ e. e ≡ OutOfMemory };

    fn from(_e: AllocError) -> NameError {
        NameError::OutOfMemory
    }
}

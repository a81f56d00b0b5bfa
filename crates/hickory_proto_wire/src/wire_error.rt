//! Why bytes are no message.
use std::alloc::{AllocError, AllocFailed};
use thiserror::Error;

/// What is wrong with the bytes: the first fault from left to right.
#[derive(Clone, Copy, Debug, PartialEq, Eq, Error)]
pub enum WireFault {
    /// The bytes, or a record's data, end within a field.
    #[error("message too short")]
    Short,
    /// A name goes on with an octet that begins neither a label nor a pointer (RFC 1035, section 4.1.4).
    #[error("bad label")]
    BadLabel,
    /// A name of more than 255 octets (RFC 1035, section 2.3.4).
    #[error("name too long")]
    NameTooLong,
    /// A name with more than 128 pointers.
    #[error("too many pointers")]
    TooManyPointers,
    /// A pointer that leads to no earlier place than where the labels before it began (RFC 1035, section 4.1.4).
    #[error("pointer not back")]
    PointerNotBack,
    /// Names that would take more than 16,384 labels, where labels that stand at one place are taken once.
    #[error("too many labels")]
    TooManyLabels,
    /// Octets within a record's data, behind the data.
    #[error("trailing data")]
    TrailingData,
    /// An OPT record whose owner is not the root (RFC 6891, section 6.1.2).
    #[error("OPT with a name")]
    OptName,
    /// A second OPT record (RFC 6891, section 6.1.1).
    #[error("second OPT")]
    SecondOpt,
}

/// Why there is no message.
#[derive(Clone, Copy, Debug, PartialEq, Eq, Error)]
pub enum WireError {
    /// No memory was left.
    #[error("out of memory")]
    OutOfMemory,
    /// The bytes are no message.
    #[error("{0}")]
    Fault(WireFault),
}

impl<T: Drop> From<AllocFailed<T>> for WireError {
    ghost use Rattle.std.specs.Prelude.{◌≡◌};
    ghost use Rattle.hickory_proto_wire.specs.declared.wire_error.WireError.TheVariants.{OutOfMemory};

    ghost from_gives = { λ _ e. e ≡ OutOfMemory };

    fn from(_e: AllocFailed<T>) -> WireError {
        WireError::OutOfMemory
    }
}

impl From<AllocError> for WireError {
    ghost use Rattle.std.specs.Prelude.{◌≡◌};
    ghost use Rattle.hickory_proto_wire.specs.declared.wire_error.WireError.TheVariants.{OutOfMemory};

    ghost from_gives = { λ _ e. e ≡ OutOfMemory };

    fn from(_e: AllocError) -> WireError {
        WireError::OutOfMemory
    }
}

//! Why a message has no bytes.
use std::alloc::{AllocError, AllocFailed};
use thiserror::Error;

/// Why a message was not written.
#[derive(Clone, Copy, Debug, PartialEq, Eq, Error)]
pub enum ToWireError {
    /// No memory was left.
    #[error("out of memory")]
    OutOfMemory,
    /// A name is relative.
    #[error("relative name")]
    RelativeName,
    /// A string of TXT data has more than 255 octets (RFC 1035, section 3.3).
    #[error("string too long")]
    StringTooLong,
    /// Unknown data have the code of a type that is parsed, or the code of OPT in the additional section.
    #[error("unknown data of a known type")]
    KnownType,
    /// Unknown data of an old type, such as MINFO, are not read as they stand: a name in them is not whole, or they are
    /// no data of their type (RFC 3597, section 4).
    #[error("data not spelled out")]
    NotSpelledOut,
    /// The kind of message has a code past 15 (RFC 1035, section 4.1.1).
    #[error("kind of message past 15")]
    OpCodeTooLarge,
    /// The response code is past 15 without OPT, or past 4095 with it (RFC 6891, section 6.1.3).
    #[error("response code too large")]
    ResponseCodeTooLarge,
    /// A section has more than 65,535 entries.
    #[error("too many records")]
    TooManyRecords,
    /// The limit is below what is always written: the header, the questions and the OPT record.
    #[error("limit too small")]
    LimitTooSmall,
    /// The data of a record take more than 65,535 octets.
    #[error("data too long")]
    DataTooLong,
}

impl<T: Drop> From<AllocFailed<T>> for ToWireError {
    ghost use Rattle.std.specs.Prelude.{◌≡◌};
    ghost use Rattle.hickory_proto_wire.specs.declared.to_wire_error.ToWireError.TheVariants.{OutOfMemory};

    ghost from_gives = { λ _ e. e ≡ OutOfMemory };

    fn from(_e: AllocFailed<T>) -> ToWireError {
        ToWireError::OutOfMemory
    }
}

impl From<AllocError> for ToWireError {
    ghost use Rattle.std.specs.Prelude.{◌≡◌};
    ghost use Rattle.hickory_proto_wire.specs.declared.to_wire_error.ToWireError.TheVariants.{OutOfMemory};

    ghost from_gives = { λ _ e. e ≡ OutOfMemory };

    fn from(_e: AllocError) -> ToWireError {
        ToWireError::OutOfMemory
    }
}

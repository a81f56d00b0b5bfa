//! Why a reply is not stored.
use hickory_proto_wire::ToWireError;
use std::alloc::{AllocError, AllocFailed};
use thiserror::Error;

/// Why a reply was not stored.
#[derive(Clone, Copy, Debug, PartialEq, Eq, Error)]
pub enum StoreError {
    /// No memory was left.
    #[error("out of memory")]
    OutOfMemory,
    /// `to_wire` refuses to write it.
    #[error("not writable")]
    Unwritable(ToWireError),
    /// It has more than `LONGEST` octets.
    #[error("reply too long")]
    TooLong,
}

impl<T: Drop> From<AllocFailed<T>> for StoreError {
    ghost use Rattle.std.specs.Prelude.{◌≡◌};
    ghost use Rattle.stored_replies.specs.declared.store_error.StoreError.TheVariants.{OutOfMemory};

    ghost from_gives = { λ _ e. e ≡ OutOfMemory };

    fn from(_e: AllocFailed<T>) -> StoreError {
        StoreError::OutOfMemory
    }
}

impl From<AllocError> for StoreError {
    ghost use Rattle.std.specs.Prelude.{◌≡◌};
    ghost use Rattle.stored_replies.specs.declared.store_error.StoreError.TheVariants.{OutOfMemory};

    ghost from_gives = { λ _ e. e ≡ OutOfMemory };

    fn from(_e: AllocError) -> StoreError {
        StoreError::OutOfMemory
    }
}

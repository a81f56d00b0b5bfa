//! Why a table of hosts does not grow.
use std::alloc::{AllocError, AllocFailed};
use thiserror::Error;

/// Why a file is not read, or a look-up not put in.
#[derive(Clone, Copy, Debug, PartialEq, Eq, Error)]
pub enum HostsError {
    /// The reader failed.
    #[error("read failed")]
    Read,
    /// A line that is not UTF-8.
    #[error("not UTF-8")]
    InvalidData,
    /// No memory was left.
    #[error("out of memory")]
    OutOfMemory,
}

impl<T: Drop> From<AllocFailed<T>> for HostsError {
    ghost use Rattle.std.specs.Prelude.{◌≡◌};
    ghost use Rattle.hickory_resolver_hosts.specs.declared.hosts_error.HostsError.TheVariants.{OutOfMemory};

    ghost from_gives = { λ _ error. error ≡ OutOfMemory };

    fn from(_: AllocFailed<T>) -> HostsError {
        HostsError::OutOfMemory
    }
}

impl From<AllocError> for HostsError {
    ghost use Rattle.std.specs.Prelude.{◌≡◌};
    ghost use Rattle.hickory_resolver_hosts.specs.declared.hosts_error.HostsError.TheVariants.{OutOfMemory};

    ghost from_gives = { λ _ error. error ≡ OutOfMemory };

    fn from(_: AllocError) -> HostsError {
        HostsError::OutOfMemory
    }
}

//! Why a replay has no text, or not all of it was written.
ghost use Rattle.std.specs.Prelude.{◌≡◌};

use hickory_resolver::HostsError;
use replay_script::{ScriptError, ScriptFault};
use std::alloc::AllocError;
use thiserror::Error;

/// Why a script has no text, or not all of it was written.
#[derive(Clone, Copy, Debug, PartialEq, Eq, Error)]
pub enum ReplayError {
    /// The script has a fault.
    #[error("{0}")]
    Script(ScriptError),
    /// The hosts cannot be read.
    #[error("hosts: {0}")]
    Hosts(HostsError),
    /// No memory was left.
    #[error("out of memory")]
    Memory,
    /// The writer failed, and a beginning of the text was written.
    #[error("cannot write")]
    Write,
}

impl ReplayError {
    ghost use Rattle.replay.specs.Statuses.{status_of};

    /// The exit status of a program that ends so.
    pub fn status(&self) -> u8
        ensures { result ≡ status_of self.now }
    {
        match self {
            ReplayError::Script(_) => 1,
            ReplayError::Memory => 3,
            ReplayError::Hosts(_) | ReplayError::Write => 4,
        }
    }
}

impl From<ScriptError> for ReplayError {
    ghost use Rattle.std.specs.Prelude.{◌≡◌};
    ghost use Rattle.replay.specs.ScriptRun.{replay_error_of};

    ghost from_gives = { λ error x. x ≡ replay_error_of error };

    fn from(error: ScriptError) -> ReplayError {
        match error.fault {
            ScriptFault::OutOfMemory => ReplayError::Memory,
            _ => ReplayError::Script(error),
        }
    }
}

impl From<HostsError> for ReplayError {
    ghost use Rattle.std.specs.Prelude.{◌≡◌};
    ghost use Rattle.replay.specs.ScriptRun.{hosts_fault};

    ghost from_gives = { λ error x. x ≡ hosts_fault error };

    fn from(error: HostsError) -> ReplayError {
        match error {
            HostsError::OutOfMemory => ReplayError::Memory,
            _ => ReplayError::Hosts(error),
        }
    }
}

impl From<AllocError> for ReplayError {
    ghost use Rattle.std.specs.Prelude.{◌≡◌};
    ghost use Rattle.replay.specs.declared.error.ReplayError.TheVariants.{Memory};

    ghost from_gives = { λ _ x. x ≡ Memory };

    fn from(_: AllocError) -> ReplayError {
        ReplayError::Memory
    }
}

//! Why settings are refused.
ghost use Rattle.std.specs.Prelude.{◌≡◌, ◌≢◌, ◌⊎◌};
ghost use Rattle.replay_script.specs.declared.fault.ScriptError.{ScriptError};

use replay_script::{ScriptError, ScriptFault};
use thiserror::Error;

/// Why settings are refused.
#[derive(Clone, Copy, Debug, PartialEq, Eq, Error)]
pub enum SettingsError {
    /// The first line with a fault, and its number, counted from 1. Bounds on times to live that are reversed once
    /// every line is read are of no one line: their number is 0.
    #[error("{0}")]
    Line(ScriptError),
    /// The first line, counted from 1, that is no setting of a session: an outcome, a request, or how outcomes are
    /// found.
    #[error("line {0} is no setting of a session")]
    NotSetting(usize),
    /// No memory was left.
    #[error("out of memory")]
    OutOfMemory,
}

/// The error of a line of this number.
pub fn line_error(number: usize, fault: ScriptFault) -> SettingsError
    ensures { (result ≡ SettingsError.OutOfMemory)
        ⊎ ((fault ≢ ScriptFault.OutOfMemory)
        × (result ≡ SettingsError.Line (record { line = number; fault = fault }))) }
{
    match fault {
        ScriptFault::OutOfMemory => SettingsError::OutOfMemory,
        _ => SettingsError::Line(ScriptError {
            line: number,
            fault,
        }),
    }
}

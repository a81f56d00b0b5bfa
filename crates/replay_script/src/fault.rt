//! What can be wrong with a script.
ghost use Rattle.std.specs.Prelude.{◌≡◌};

use hickory_proto_core::NameError;
use std::alloc::{AllocError, AllocFailed};
use std::fmt;
use std::marker::Model;
use thiserror::Error;

/// Why a line is refused.
#[derive(Clone, Copy, Debug, PartialEq, Eq, Error)]
pub enum ScriptFault {
    /// A byte other than TAB and the printable ones of ASCII.
    #[error("S1 bad byte")]
    BadByte,
    /// A first field that is no directive.
    #[error("S2 unknown directive")]
    UnknownDirective,
    /// Too few fields, or too many.
    #[error("S3 wrong number of fields")]
    FieldCount,
    /// A number with something else than digits, or out of its range.
    #[error("S4 bad number")]
    BadNumber,
    /// A text that is no name.
    #[error("S5 bad name")]
    BadName,
    /// A text that is no address of the record's family.
    #[error("S6 bad address")]
    BadAddress,
    /// A word that cannot stand in its place.
    #[error("S7 unknown word")]
    UnknownWord,
    /// A record with no reply before it that it could belong to.
    #[error("S8 no open reply")]
    NoReply,
    /// A request that is earlier than the one before it.
    #[error("S9 moment goes back")]
    MomentBack,
    /// Data that are not an even number of hex digits.
    #[error("S10 bad hex")]
    BadHex,
    /// A least bound on times to live above the greatest one.
    #[error("S11 reversed bounds")]
    ReversedBounds,
    /// No memory was left.
    #[error("out of memory")]
    OutOfMemory,
}

/// The first fault of a line, and the field that it is about.
#[derive(Debug, Drop)]
pub struct LineFault<'a> {
    pub fault: ScriptFault,
    /// The text of the field that is no directive, number, name, address, word or hex digits of its place; none
    /// where the fault is about no single field.
    pub field: Option<&'a str>,
}

impl<'a> Model for LineFault<'a> {
    ghost use Rattle.std.specs.Option.{option_map};
    ghost use Rattle.replay_script.specs.Faults.{LineFaultValue};

    ghost Value = { LineFaultValue };

    ghost view = { λ f. record {
      fault = f.fault;
      field = option_map (λ text. text.now) f.field;
    } };
}

impl<'a> LineFault<'a> {
    ghost use Rattle.replay_script.specs.Faults.{name_fault, wrong_field, wrong_line};

    /// A fault of this field.
    pub fn wrong_field(fault: ScriptFault, field: &'a str) -> LineFault<'a>
        ensures { result ≡ wrong_field fault field.now }
    {
        LineFault {
            fault,
            field: Some(field),
        }
    }

    /// A fault that is about no single field.
    pub fn wrong_line(fault: ScriptFault) -> LineFault<'a>
        ensures { result ≡ wrong_line fault }
    {
        LineFault { fault, field: None }
    }

    // The fault of a field that is to be a name.
    pub(crate) fn from_name(field: &'a str, error: NameError) -> LineFault<'a>
        ensures { result ≡ name_fault field.now error }
    {
        match error {
            NameError::OutOfMemory => LineFault::wrong_line(ScriptFault::OutOfMemory),
            _ => LineFault::wrong_field(ScriptFault::BadName, field),
        }
    }
}

impl<'a> fmt::Display for LineFault<'a> {
    fn fmt<W: fmt::Write>(&self, f: &mut fmt::Formatter<W>) -> fmt::Result {
        let fault = self.fault;
        match self.field {
            Some(field) => write!(f, "{fault}: {field}"),
            None => write!(f, "{fault}"),
        }
    }
}

impl<'a> std::error::Error for LineFault<'a> {}

/// The first fault of a script, and the number of its line, counted from 1. Out of memory has no line, nor
/// have bounds that are reversed once every line is read: their number is 0.
#[derive(Clone, Copy, Debug, PartialEq, Eq)]
pub struct ScriptError {
    pub line: usize,
    pub fault: ScriptFault,
}

impl ScriptError {
    /// Out of memory.
    pub const fn out_of_memory() -> ScriptError
        ensures { result ≡ record { line = 0; fault = ScriptFault.OutOfMemory } }
    {
        ScriptError {
            line: 0,
            fault: ScriptFault::OutOfMemory,
        }
    }
}

impl fmt::Display for ScriptError {
    fn fmt<W: fmt::Write>(&self, f: &mut fmt::Formatter<W>) -> fmt::Result {
        let ScriptError { line, fault } = *self;
        match fault {
            ScriptFault::OutOfMemory => write!(f, "out of memory"),
            fault => write!(f, "script line {line}: {fault}"),
        }
    }
}

impl std::error::Error for ScriptError {}

impl<T: Drop> From<AllocFailed<T>> for ScriptFault {
    ghost use Rattle.std.specs.Prelude.{◌≡◌};
    ghost use Rattle.replay_script.specs.declared.fault.ScriptFault.TheVariants.{OutOfMemory};

    ghost from_gives = { λ _ fault. fault ≡ OutOfMemory };

    fn from(_: AllocFailed<T>) -> ScriptFault {
        ScriptFault::OutOfMemory
    }
}

impl From<AllocError> for ScriptFault {
    ghost use Rattle.std.specs.Prelude.{◌≡◌};
    ghost use Rattle.replay_script.specs.declared.fault.ScriptFault.TheVariants.{OutOfMemory};

    ghost from_gives = { λ _ fault. fault ≡ OutOfMemory };

    fn from(_: AllocError) -> ScriptFault {
        ScriptFault::OutOfMemory
    }
}

impl<'a> From<LineFault<'a>> for ScriptFault {
    ghost use Rattle.std.specs.Prelude.{◌≡◌};

    ghost from_gives = { λ error fault. fault ≡ error.fault };

    fn from(error: LineFault<'a>) -> ScriptFault {
        error.fault
    }
}

impl<'a, T: Drop> From<AllocFailed<T>> for LineFault<'a> {
    ghost use Rattle.std.specs.Prelude.{◌≡◌};
    ghost use Rattle.replay_script.specs.Faults.{out_of_memory};

    ghost from_gives = { λ _ fault. fault ≡ out_of_memory };

    fn from(_: AllocFailed<T>) -> LineFault<'a> {
        LineFault::wrong_line(ScriptFault::OutOfMemory)
    }
}

impl<'a> From<AllocError> for LineFault<'a> {
    ghost use Rattle.std.specs.Prelude.{◌≡◌};
    ghost use Rattle.replay_script.specs.Faults.{out_of_memory};

    ghost from_gives = { λ _ fault. fault ≡ out_of_memory };

    fn from(_: AllocError) -> LineFault<'a> {
        LineFault::wrong_line(ScriptFault::OutOfMemory)
    }
}

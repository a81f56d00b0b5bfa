//! Why a trace is not judged to its end.
use replay_script::ScriptFault;
use std::alloc::AllocError;
use std::{fmt, io};

/// Why a trace is not judged to its end.
#[derive(Clone, Copy, Debug)]
pub enum TraceError {
    /// A line that is no line of a trace, by its number, counted from 1.
    Line(u64, ScriptFault),
    /// The trace cannot be read.
    Input,
    /// The findings cannot be written.
    Output,
    /// No memory was left.
    Memory,
}

impl TraceError {
    /// The exit status of a program that ends with it.
    pub fn status(&self) -> u8 {
        match self {
            TraceError::Line(_, _) => 2,
            TraceError::Memory => 3,
            TraceError::Input | TraceError::Output => 4,
        }
    }
}

impl fmt::Display for TraceError {
    fn fmt<W: fmt::Write>(&self, f: &mut fmt::Formatter<W>) -> fmt::Result {
        match *self {
            TraceError::Line(number, fault) => write!(f, "trace line {number}: {fault}"),
            TraceError::Input => f.write_str("cannot read"),
            TraceError::Output => f.write_str("cannot write"),
            TraceError::Memory => f.write_str("out of memory"),
        }
    }
}

impl std::error::Error for TraceError {}

impl From<AllocError> for TraceError {
    fn from(_: AllocError) -> TraceError {
        TraceError::Memory
    }
}

/// Out of memory, or the other error.
pub fn memory_or(error: io::Error, other: TraceError) -> TraceError {
    if error.kind() == io::ErrorKind::OutOfMemory {
        TraceError::Memory
    } else {
        other
    }
}

//! Why the program ends before its input does.
use std::alloc::AllocError;
use std::{fmt, io};

/// Why the program ends before its input does.
#[derive(Debug, Drop)]
pub enum ServeError {
    Usage,
    PathNotUtf8,
    Unreadable(String),
    Unwritable(String),
    HostsNotUtf8,
    Input,
    Output,
    Memory,
}

impl ServeError {
    /// The exit status.
    pub fn status(&self) -> u8 {
        match self {
            ServeError::Usage => 2,
            ServeError::Memory => 3,
            _ => 4,
        }
    }
}

impl fmt::Display for ServeError {
    fn fmt<W: fmt::Write>(&self, f: &mut fmt::Formatter<W>) -> fmt::Result {
        match self {
            ServeError::Usage => f.write_str(
                "usage: resolve_serve [--hosts FILE] [--journal FILE]",
            ),
            ServeError::PathNotUtf8 => f.write_str("cannot open a path that is not UTF-8"),
            ServeError::Unreadable(path) => write!(f, "cannot read {path}"),
            ServeError::Unwritable(path) => write!(f, "cannot write {path}"),
            ServeError::HostsNotUtf8 => f.write_str("hosts: not UTF-8"),
            ServeError::Input => f.write_str("cannot read"),
            ServeError::Output => f.write_str("cannot write"),
            ServeError::Memory => f.write_str("out of memory"),
        }
    }
}

impl From<AllocError> for ServeError {
    fn from(_: AllocError) -> ServeError {
        ServeError::Memory
    }
}

/// Whether memory ran out.
pub fn is_memory(error: &io::Error) -> bool {
    error.kind() == io::ErrorKind::OutOfMemory
}

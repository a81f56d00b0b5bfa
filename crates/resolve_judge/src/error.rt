//! Why the program ends before its input does.
use std::fmt;
use trace_lines::TraceError;

/// Why the program ends before its input does.
#[derive(Debug, Drop)]
pub enum JudgeError {
    Usage,
    PathNotUtf8,
    Unreadable(String),
    Trace(TraceError),
}

impl JudgeError {
    /// The exit status.
    pub fn status(&self) -> u8 {
        match self {
            JudgeError::Usage => 2,
            JudgeError::PathNotUtf8 | JudgeError::Unreadable(_) => 4,
            JudgeError::Trace(error) => error.status(),
        }
    }
}

impl fmt::Display for JudgeError {
    fn fmt<W: fmt::Write>(&self, f: &mut fmt::Formatter<W>) -> fmt::Result {
        match self {
            JudgeError::Usage => f.write_str(
                "usage: resolve_judge TRACE [--slack SECONDS] [--cold] [--serve-stale SECONDS] [--local ZONE].. \
                 [--dns64 PREFIX].. [--hosts FILE]..",
            ),
            JudgeError::PathNotUtf8 => f.write_str("cannot open a path that is not UTF-8"),
            JudgeError::Unreadable(path) => write!(f, "cannot read {path}"),
            JudgeError::Trace(error) => write!(f, "{error}"),
        }
    }
}

impl From<TraceError> for JudgeError {
    fn from(error: TraceError) -> JudgeError {
        JudgeError::Trace(error)
    }
}

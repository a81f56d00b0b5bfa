//! Runs a script against a table of hosts and a resolver, and prints what happened.
#![tactic(auto)]

use replay::{ReplayError, Watched, replay};
use std::env::FillError;
use std::process::ExitCode;
use std::rt::{Env, Files};
use std::{env, fmt, fs, io};

// The text is whole before any of it is written, so it is written directly: a buffer would hide a write that
// fails.
fn main(rt: HostRuntime) -> ExitCode {
    let replayed = match read_files(&rt) {
        Ok((script, hosts)) => {
            let mut writer = Watched::new(io::writer(&rt));
            replay(rt.alloc(), &script, hosts.as_deref(), &mut writer).map_err(RunError::Replay)
        }
        Err(error) => Err(error),
    };
    match replayed {
        Ok(()) => ExitCode::SUCCESS,
        Err(error) => {
            let status = error.status();
            let _ = rt.eprintln(error);
            ExitCode::from(status)
        }
    }
}

// Why the program ends with nothing, or only a beginning of the text, on standard output.
#[derive(Debug, Drop)]
enum RunError {
    Usage,
    PathNotUtf8,
    Unreadable(String),
    Replay(ReplayError),
}

impl RunError {
    fn status(&self) -> u8 {
        match self {
            RunError::Usage => 2,
            RunError::Replay(error) => error.status(),
            RunError::PathNotUtf8 | RunError::Unreadable(_) => 4,
        }
    }
}

impl fmt::Display for RunError {
    fn fmt<W: fmt::Write>(&self, f: &mut fmt::Formatter<W>) -> fmt::Result {
        match self {
            RunError::Usage => f.write_str("usage: resolve_replay SCRIPT [HOSTS]"),
            RunError::PathNotUtf8 => f.write_str("cannot read a path that is not UTF-8"),
            RunError::Unreadable(path) => write!(f, "cannot read {path}"),
            RunError::Replay(error) => write!(f, "{error}"),
        }
    }
}

// The bytes of the script, and those of the hosts where there are any.
fn read_files<R: AllocGlobal + Env + Files>(
    rt: &R,
) -> Result<(Vec<u8>, Option<Vec<u8>>), RunError> {
    let (script, hosts) = paths(rt)?;
    let script = read(rt, script)?;
    match hosts {
        Some(path) => Ok((script, Some(read(rt, path)?))),
        None => Ok((script, None)),
    }
}

// The arguments behind the program's name: the path of the script, and that of the hosts where there is one.
fn paths<R: AllocGlobal + Env>(rt: &R) -> Result<(String, Option<String>), RunError> {
    let mut arguments = match env::args(rt) {
        Ok(arguments) => arguments.skip(1),
        Err(error) => return Err(memory_or(error, not_text(rt))),
    };
    match (arguments.next(), arguments.next(), arguments.next()) {
        (Some(script), hosts, None) => Ok((script, hosts)),
        _ => Err(RunError::Usage),
    }
}

// One of the arguments is not UTF-8, which counts where their number is right.
fn not_text<R: Env>(rt: &R) -> RunError {
    if has_argument(rt, 1) && !has_argument(rt, 3) {
        RunError::PathNotUtf8
    } else {
        RunError::Usage
    }
}

fn has_argument<R: Env>(rt: &R, place: usize) -> bool {
    !matches!(rt.arg(place, &mut []), Err(FillError::NotPresent))
}

fn read<R: AllocGlobal + Files>(rt: &R, path: String) -> Result<Vec<u8>, RunError> {
    match fs::read(rt, path.as_str()) {
        Ok(bytes) => Ok(bytes),
        Err(error) => Err(memory_or(error, RunError::Unreadable(path))),
    }
}

// Out of memory, or the other error.
fn memory_or(error: io::Error, other: RunError) -> RunError {
    if error.kind() == io::ErrorKind::OutOfMemory {
        RunError::Replay(ReplayError::Memory)
    } else {
        other
    }
}

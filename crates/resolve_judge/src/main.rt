//! Judges a trace of a resolver: what it told its clients, by what it received of its upstream.
#![tactic(auto)]

ghost use Rattle.std.specs.Prelude.{◌≡◌, if◌then◌else◌};

mod arguments;
mod error;

use arguments::read_arguments;
use error::JudgeError;
use std::io::BufReader;
use std::process::ExitCode;
use std::{fs, mem};
use trace_lines::{Settings, TraceError, report};

fn main(rt: HostRuntime) -> ExitCode {
    match run(&rt) {
        Ok(found) => ExitCode::from(status_of(found)),
        Err(error) => {
            let status = error.status();
            let _ = rt.eprintln(error);
            ExitCode::from(status)
        }
    }
}

// The status of a trace that was judged to its end: 1 where anything was found.
fn status_of(found: bool) -> u8
    ensures { result ≡ (if found then 1 else 0) }
{
    u8::from(found)
}

// Whether anything was found.
fn run(rt: &HostRuntime) -> Result<bool, JudgeError> {
    let alloc = rt.alloc();
    let (trace, mut settings) = read_arguments(rt)?;
    read_hosts(rt, &mut settings)?;
    if trace.as_str() == "-" {
        return Ok(report(alloc, settings, &mut rt.reader(), &mut rt.stdout())?);
    }
    let Ok(file) = fs::open(rt, trace.as_str()) else {
        return Err(JudgeError::Unreadable(trace));
    };
    let Ok(mut reader) = BufReader::new(alloc, file) else {
        return Err(JudgeError::Trace(TraceError::Memory));
    };
    Ok(report(alloc, settings, &mut reader, &mut rt.stdout())?)
}

// Takes the records of the files of hosts that are named.
fn read_hosts(rt: &HostRuntime, settings: &mut Settings) -> Result<(), JudgeError> {
    let paths = mem::replace(&mut settings.hosts, Vec::new(rt.alloc()));
    for path in paths {
        let Ok(text) = fs::read_to_string(rt, path.as_str()) else {
            return Err(JudgeError::Unreadable(path));
        };
        if settings.add_hosts(rt.alloc(), text.as_str()).is_err() {
            return Err(JudgeError::Trace(TraceError::Memory));
        }
    }
    Ok(())
}

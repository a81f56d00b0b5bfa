//! The arguments of the program.
use crate::error::JudgeError;
use std::env;
use std::rt::Env;
use trace_lines::{SettingFault, Settings, TraceError};

/// Reads the arguments behind the program's name: the path of the trace, `-` for standard input, and what is allowed.
pub fn read_arguments<R: AllocGlobal + Env>(rt: &R) -> Result<(String, Settings), JudgeError> {
    let mut words = match env::args(rt) {
        Ok(words) => words,
        Err(_) => return Err(JudgeError::PathNotUtf8),
    };
    let _program = words.next();
    let mut settings = Settings::new(rt.alloc());
    let mut trace = None;
    for _ in 0..u64::MAX {
        let Some(word) = words.next() else {
            break;
        };
        if !word.as_str().starts_with("--") {
            set_trace(&mut trace, word)?;
        } else if let Err(fault) = settings.read(rt.alloc(), word.as_str(), &mut words) {
            return Err(error_of(fault));
        }
    }
    match trace {
        Some(trace) => Ok((trace, settings)),
        None => Err(JudgeError::Usage),
    }
}

fn set_trace(trace: &mut Option<String>, word: String) -> Result<(), JudgeError> {
    if trace.is_some() {
        return Err(JudgeError::Usage);
    }
    *trace = Some(word);
    Ok(())
}

fn error_of(fault: SettingFault) -> JudgeError {
    match fault {
        SettingFault::Usage => JudgeError::Usage,
        SettingFault::Memory => JudgeError::Trace(TraceError::Memory),
    }
}

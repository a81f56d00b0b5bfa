//! What a session is opened with: files resolv.conf, host names and settings, and what is read of them.

mod shown;

use crate::settings::shown::show;
use session_settings::read_session_settings;
use std::alloc::{AllocError, Global};

/// Does what each line says.
pub fn run(rt: &impl Print, alloc: Global, cases: &str) -> Result<(), AllocError> {
    let mut case = Case::new(alloc);
    for line in cases.lines() {
        case.take(rt, line)?;
    }
    Ok(())
}

// A file resolv.conf, a host name, and settings.
#[derive(Drop)]
struct Case {
    alloc: Global,
    conf: Vec<u8>,
    hostname: Vec<u8>,
    settings: Vec<u8>,
}

impl Case {
    // Nothing is said.
    fn new(alloc: Global) -> Case {
        Case {
            alloc,
            conf: Vec::new(alloc),
            hostname: Vec::new(alloc),
            settings: Vec::new(alloc),
        }
    }

    // A line behind `conf`, `host` or `set` is one of the file, of the name or of the settings. At `read` all is read
    // and forgotten. Another line is printed as it is.
    fn take(&mut self, rt: &impl Print, line: &str) -> Result<(), AllocError> {
        if let Some(text) = line.strip_prefix("conf ") {
            return push_line(&mut self.conf, text);
        }
        if let Some(text) = line.strip_prefix("host ") {
            return self.hostname.extend_from_slice(text.as_bytes());
        }
        if let Some(text) = line.strip_prefix("set") {
            return push_line(&mut self.settings, text);
        }
        if line == "read" {
            self.read(rt);
        } else {
            let _ = println!(rt; "{line}");
        }
        Ok(())
    }

    fn read(&mut self, rt: &impl Print) {
        match read_session_settings(self.alloc, &self.conf, &self.hostname, &self.settings) {
            Ok(settings) => show(rt, &settings),
            Err(error) => {
                let _ = println!(rt; "refused: {error}");
            }
        }
        self.conf.clear();
        self.hostname.clear();
        self.settings.clear();
    }
}

fn push_line(text: &mut Vec<u8>, line: &str) -> Result<(), AllocError> {
    text.extend_from_slice(line.as_bytes())?;
    text.push(b'\n')?;
    Ok(())
}

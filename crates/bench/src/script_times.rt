//! A script of many requests, from its bytes to the text of its run.
ghost use Rattle.std.specs.Prelude.{◌<◌};

use crate::measure::{Stopwatch, Subject};
use crate::samples::Numbered;
use hickory_proto_core::NetError;
use replay::replay_text;
use std::alloc::Global;
use std::rt::Clock;

const REQUESTS: u64 = 1_000_000;

/// Times the runs of two scripts, and prints a line for a request of each: over as many replies as they have
/// names, in order, and over a table.
pub fn print_times<R: Clock + Print>(
    alloc: Global,
    watch: &mut Stopwatch<'_, R>,
) -> anyhow::Result<()> {
    let script = script_of(alloc, "", 8_000)?;
    let requests = &mut Requests { alloc, script };
    watch.print_best(
        "a request of 1,000,000 in a script",
        requests,
        1,
        1,
        REQUESTS,
    )?;
    let script = script_of(alloc, "upstream table\n", 1_000)?;
    let requests = &mut Requests { alloc, script };
    watch.print_best(
        "a request of 1,000,000 over a table",
        requests,
        1,
        1,
        REQUESTS,
    )
}

// These lines, a reply for each of so many names, with an address for a day, and requests for the names in turn.
// The first ones are asked upstream, and the others are hits.
fn script_of(alloc: Global, lines: &str, names: u64) -> anyhow::Result<String>
    requires { 0 < names }
{
    let mut script = String::from_str(alloc, lines)?;
    for number in 0..names {
        let name = String::of(alloc, number)?;
        write!(
            script,
            "reply NOERROR {name} A\nanswer {name} 86400 IN A 192.0.2.1\n"
        )?;
    }
    for number in 0..REQUESTS {
        let name = String::of(alloc, number % names)?;
        write!(script, "at {} lookup {name} A\n", number / names)?;
    }
    Ok(script)
}

#[derive(Drop)]
struct Requests {
    alloc: Global,
    script: String,
}

impl Subject for Requests {
    fn operate(&mut self, _i: usize) -> Result<u64, NetError> {
        match replay_text(self.alloc, self.script.as_bytes(), &[]) {
            Ok(text) => Ok(text.len() as u64),
            Err(_) => Err(NetError::OutOfMemory),
        }
    }
}

//! Runs cases of a pool of name servers, in the files that the arguments name, one after another: what it is configured
//! with, what happens at which millisecond, and below each event what comes out: what is opened, sent and closed, what
//! is over, and the next moment at which a tick is wanted. The gate compares the text with the file `stdout`, which was
//! written by hand, from what is said of each event, before the pool was run. The file `settings.cases` says what a
//! session over a pool is opened with. With the argument `--times` it prints what the pool costs, and no case.
//!
//! Who owns a pool, a message or what a transaction came to makes one call over it, and lets it go: where a function
//! may return while it owns one, the prover takes that apart at each way out.
#![tactic(auto)]

mod actions;
mod case;
mod counts;
mod events;
mod outcomes;
mod replies;
mod sent;
mod settings;
mod setup;
mod shown;
mod times;
mod words;

use case::Case;
use std::alloc::Global;
use std::rt::Files;
use std::{env, fs};

fn main(rt: HostRuntime) -> anyhow::Result<()> {
    let mut case = Case::new(rt.alloc());
    let done = run_all(&rt, rt.alloc(), &mut case);
    drop(case);
    done
}

fn run_all(rt: &HostRuntime, alloc: Global, case: &mut Case) -> anyhow::Result<()> {
    for path in env::args(rt)?.skip(1) {
        if path.as_str() == "--times" {
            times::print_times(rt, alloc)?;
        } else if path.as_str() == "settings.cases" {
            settings::run(rt, alloc, &fs::read_to_string(rt, path.as_str())?)?;
        } else {
            run(rt, alloc, case, &path)?;
        }
    }
    Ok(())
}

// Runs the cases of a file.
fn run<R: AllocGlobal + Files + Print>(
    rt: &R,
    alloc: Global,
    case: &mut Case,
    path: &str,
) -> anyhow::Result<()> {
    let text = fs::read_to_string(rt, path)?;
    for line in text.lines() {
        case.take(rt, alloc, line)?;
    }
    case.finish(rt, alloc)
}

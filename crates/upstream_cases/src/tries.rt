//! Tries at a question, and streams.

mod case;
mod lines;
mod shown;

use case::Case;
use std::alloc::Global;

/// Does what each line says.
pub fn run(rt: &impl Print, alloc: Global, cases: &str) -> anyhow::Result<()> {
    let mut case = Case::new(alloc)?;
    for line in cases.lines() {
        case.take(rt, alloc, line)?;
    }
    Ok(())
}

//! Messages as bytes: the lines of a file.

mod lines;
mod shown;

use std::alloc::Global;

/// All of it.
pub fn show_all(rt: &impl Print, alloc: Global, cases: &str) -> anyhow::Result<()> {
    let mut octets = Vec::new(alloc);
    for line in cases.lines() {
        lines::take(rt, alloc, &mut octets, line)?;
    }
    Ok(())
}

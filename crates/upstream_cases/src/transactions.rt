//! Transactions over the servers of a group.

mod case;
mod shown;
mod words;

use case::Case;
use std::alloc::{AllocError, Global};

/// Does what each line says.
pub fn run(rt: &impl Print, alloc: Global, cases: &str) -> Result<(), AllocError> {
    let mut case = Case::new(alloc)?;
    for line in cases.lines() {
        case.take(rt, alloc, line)?;
    }
    Ok(())
}

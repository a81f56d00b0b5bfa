//! Groups of name servers.

mod group;
mod words;

use group::Group;
use std::alloc::{AllocError, Global};

/// Does what each line says.
pub fn run(rt: &impl Print, alloc: Global, cases: &str) -> Result<(), AllocError> {
    let mut group = Group::new(alloc);
    for line in cases.lines() {
        group.take(rt, alloc, line)?;
    }
    Ok(())
}

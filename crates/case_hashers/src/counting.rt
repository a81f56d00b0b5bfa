//! A hasher that counts how often it is asked.
use crate::one_hash::OneHash;
use std::alloc::{AllocError, Global};
use std::cell::Cell;
use std::hash::BuildHasher;
use std::rc::Rc;

/// Gives everything the same hash, and counts.
#[derive(Drop)]
pub struct Counting {
    calls: Rc<Cell<u64>>,
    hasher: OneHash,
}

impl Counting {
    /// Counts its calls in this cell.
    pub fn over(calls: &Rc<Cell<u64>>) -> Result<Counting, AllocError> {
        let calls = calls.clone()?;
        let hasher = OneHash;
        Ok(Counting { calls, hasher })
    }
}

/// No call yet.
pub fn no_calls(alloc: Global) -> Result<Rc<Cell<u64>>, AllocError> {
    Ok(Rc::new(alloc, Cell::new(0_u64))?)
}

impl BuildHasher for Counting {
    type Hasher = OneHash;

    ghost build_hasher = { λ s. s.hasher };

    fn build_hasher(&self) -> OneHash {
        self.calls.set(self.calls.get().saturating_add(1));
        self.hasher
    }
}

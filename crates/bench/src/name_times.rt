//! Names: reading, comparing, hashing.
use crate::measure::{Stopwatch, Subject};
use crate::samples::{BATCH, BATCHES, OPERATIONS, list};
use hickory_proto_core::{Name, NetError};
use std::alloc::Global;
use std::hash::{BuildHasher, BuildHasherDefault, FoldHasher};
use std::rt::Clock;

// What is done with a name.
#[derive(Clone, Copy, Drop)]
enum Operation {
    Read,
    Hash,
    Compare,
}

/// Times what is done with names, and prints a line for each.
pub fn print_times<R: Clock + Print>(
    alloc: Global,
    watch: &mut Stopwatch<'_, R>,
) -> anyhow::Result<()> {
    let mut names = Names {
        alloc,
        operation: Operation::Read,
        texts: list(alloc, BATCH as u64)?,
        names: list(alloc, BATCH as u64)?,
        others: list(alloc, BATCH as u64)?,
    };
    watch.print_best("read a name's text", &mut names, BATCHES, BATCH, OPERATIONS)?;
    names.operation = Operation::Hash;
    watch.print_best("hash a name", &mut names, BATCHES, BATCH, OPERATIONS)?;
    names.operation = Operation::Compare;
    watch.print_best(
        "compare two equal names",
        &mut names,
        BATCHES,
        BATCH,
        OPERATIONS,
    )
}

// The same names as texts and twice as names.
#[derive(Drop)]
struct Names {
    alloc: Global,
    operation: Operation,
    texts: Vec<String>,
    names: Vec<Name>,
    others: Vec<Name>,
}

impl Subject for Names {
    fn operate(&mut self, i: usize) -> Result<u64, NetError> {
        let (Some(text), Some(name), Some(other)) = (
            self.texts.get(i),
            self.names.get(i),
            self.others.get(i),
        ) else {
            return Ok(0);
        };
        match self.operation {
            Operation::Read => {
                let name = Name::from_ascii(self.alloc, text.as_str())?;
                Ok(u64::from(name.num_labels()))
            }
            Operation::Hash => Ok(BuildHasherDefault::<FoldHasher>::new().hash_one(name)),
            Operation::Compare => Ok(u64::from(name == other)),
        }
    }
}

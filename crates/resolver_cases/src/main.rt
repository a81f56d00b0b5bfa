//! Prints what the layers answer, and makes public calls one by one. The output that is wanted stands beside this
//! crate's sources, written by hand, from the standards where these say it.
//!
//! The word `worked` of the arguments stands for what no script can say. First come the lines of the file `name.cases`,
//! each a call on names or addresses with its answer behind it, and texts of codes, data and errors; then readers and
//! writers that fail; then messages as bytes: those of the file `wire.cases` are read, what they say is printed, and
//! they are written again; then a table of very many outcomes, and which hasher is asked. Last come look-ups that wait,
//! where others store, clear and evict between a question and what comes back to it: the events of the file
//! `events.cases` over resolvers. What a script can say is a script.
//!
//! The word `weights`, with a number, stands for what entries of a cache weigh: those of the file `weight.cases`, each
//! so many times. `tests/weights` compares that with what they take.
//!
//! Every other word names a call that takes memory, or one that takes none: it is made between two marks, and
//! `tests/refuse_memory` makes each of them with less.
#![tactic(auto)]

mod hashers;
mod large_table;
mod memory;
mod names;
mod parts;
mod playing;
mod sample;
mod shown;
mod streams;
mod texts;
mod watched_calls;
mod weights;
mod wire;

use hickory_proto_core::NetError;
use std::alloc::Global;
use std::rt::Files;
use std::{env, fs};

fn main(rt: HostRuntime) -> anyhow::Result<()> {
    for word in env::args(&rt)?.skip(1) {
        take_word(&rt, word.as_str())?;
    }
    Ok(())
}

fn take_word<R: AllocGlobal + Files + Print>(rt: &R, word: &str) -> anyhow::Result<()> {
    if let Some(copies) = word.strip_prefix("weights ") {
        let replies = fs::read_to_string(rt, "weight.cases")?;
        return weights::show_all(rt, rt.alloc(), copies.parse().unwrap_or(0), &replies);
    }
    match word {
        "worked" => show_worked(rt),
        call => Ok(memory::make(rt, rt.alloc(), call)?),
    }
}

fn show_worked<R: AllocGlobal + Files + Print>(rt: &R) -> anyhow::Result<()> {
    let names = fs::read_to_string(rt, "name.cases")?;
    names::show_lines(rt, rt.alloc(), &names);
    texts::show_all(rt, rt.alloc())?;
    streams::show_all(rt, rt.alloc())?;
    let messages = fs::read_to_string(rt, "wire.cases")?;
    wire::show_all(rt, rt.alloc(), &messages)?;
    let events = fs::read_to_string(rt, "events.cases")?;
    show_resolvers(rt, rt.alloc(), &events)?;
    Ok(())
}

fn show_resolvers(rt: &impl Print, alloc: Global, events: &str) -> Result<(), NetError> {
    large_table::show_table(rt, alloc)?;
    hashers::show_hashers(rt, alloc)?;
    hashers::show_hashers_of_replay(rt, alloc)?;
    playing::show_played(rt, alloc, events)
}

//! Reads cases of what serves clients, and prints what comes of them. The gate compares the text with the file
//! `stdout`, which is written by hand, from the standards where these say it. First come queries of clients, those of
//! the file `queries.cases`; then what is kept of replies, those of `replies.script`, and what is left of it where
//! addresses are denied, `denied.script`; then what clients are told of replies that are stored, `stored.cases`; and
//! last a cache that gives a second chance, `second_chance.cases`.
#![tactic(auto)]

mod denied;
mod queries;
mod replies;
mod second_chance;
mod stored;
mod words;

use std::fs;

fn main(rt: HostRuntime) -> anyhow::Result<()> {
    let cases = fs::read_to_string(&rt, "queries.cases")?;
    queries::run(&rt, rt.alloc(), &cases)?;
    let script = fs::read(&rt, "replies.script")?;
    replies::run(&rt, rt.alloc(), &script)?;
    let script = fs::read(&rt, "denied.script")?;
    denied::run(&rt, rt.alloc(), &script)?;
    let cases = fs::read_to_string(&rt, "stored.cases")?;
    stored::run(&rt, rt.alloc(), &cases)?;
    let cases = fs::read_to_string(&rt, "second_chance.cases")?;
    second_chance::run(&rt, rt.alloc(), &cases)?;
    Ok(())
}

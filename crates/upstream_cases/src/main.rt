//! Reads cases of what asks name servers, and prints what comes of them. The gate compares the text with the file
//! `stdout`, which is written by hand, from the standards where these say it. First come those of the file
//! `servers.cases`: groups of name servers, what came of tries at them, and the orders of rounds. Then those of
//! `tries.cases`: questions, tries at them, octets that came, and pieces of streams. Last come those of
//! `transactions.cases`: the servers of a transaction, what is sent, and what came of it.
//!
//! What a line leaves out is 0.
#![tactic(auto)]

mod servers;
mod transactions;
mod tries;
mod words;

use std::fs;

fn main(rt: HostRuntime) -> anyhow::Result<()> {
    let cases = fs::read_to_string(&rt, "servers.cases")?;
    servers::run(&rt, rt.alloc(), &cases)?;
    let cases = fs::read_to_string(&rt, "tries.cases")?;
    tries::run(&rt, rt.alloc(), &cases)?;
    let cases = fs::read_to_string(&rt, "transactions.cases")?;
    transactions::run(&rt, rt.alloc(), &cases)?;
    Ok(())
}

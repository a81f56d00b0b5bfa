//! A table of many outcomes, as a test rig hands them in: the last outcome of a question counts, whatever the case of
//! its name.
use crate::memory::ask_each;
use crate::parts::whole;
use crate::sample::{Said, answered, query};
use crate::shown::say;
use hickory_proto_core::{NetError, Outcome, Query, RecordType, TableHandle};
use std::alloc::Global;

/// What it answers for a name that has an outcome, one that has none, and one that has two.
pub fn show_table(rt: &impl Print, alloc: Global) -> Result<(), NetError> {
    say(rt, &"# a table of a hundred thousand names");
    let mut table = TableHandle::new(outcomes(alloc)?)?;
    let asked = ask_each(rt, alloc, &mut table, &["n99999", "n100000", "n7"]);
    drop(table);
    asked
}

// No answer in time for each of a hundred thousand names, and then an address for one of them.
fn outcomes(alloc: Global) -> Result<Vec<(Query, Outcome)>, NetError> {
    let mut outcomes = Vec::new(alloc);
    whole(push_outcomes(alloc, &mut outcomes), outcomes)
}

fn push_outcomes(alloc: Global, outcomes: &mut Vec<(Query, Outcome)>) -> Result<(), NetError> {
    for number in 0..100_000_u32 {
        outcomes.push((numbered(alloc, number)?, Err(NetError::Timeout)))?;
    }
    Ok(outcomes.push(answered(alloc, "N7", RecordType::A, Said::Address)?)?)
}

fn numbered(alloc: Global, number: u32) -> Result<Query, NetError> {
    let name = format!(in alloc; "n{number}")?;
    query(alloc, name.as_str())
}

//! Handles: a table that is made and asked, and one that records what it is asked.
use crate::memory::marks::done;
use crate::parts::both;
use crate::sample::{Pair, Said, outcomes, query, table};
use crate::shown::{say, show, show_exchanges};
use hickory_proto_core::{
    DnsHandle, DnsRequest, DnsRequestOptions, NetError, RecordType, Recorded, TableHandle,
};
use std::alloc::Global;
use std::hash::BuildHasherDefault;

const PAIRS: [Pair; 2] = [
    ("a", RecordType::A, Said::Address),
    ("b", RecordType::A, Said::Late),
];

/// Makes the call of a case, and says whether there is such a case.
pub fn make(rt: &impl Print, alloc: Global, case: &str) -> Result<bool, NetError> {
    match case {
        "TableHandle::new" | "TableHandle::with_hasher" => done(new_table(rt, alloc, case)),
        "TableHandle::send" => done(send(rt, alloc, case)),
        "Recorded::send" => done(send_recorded(rt, alloc, case)),
        _ => Ok(false),
    }
}

/// A request for the addresses of a name.
pub fn request(alloc: Global, label: &str) -> Result<DnsRequest, NetError> {
    let (query, options) = (query(alloc, label)?, DnsRequestOptions::default());
    Ok(DnsRequest { query, options })
}

// A table, and what it answers.
fn new_table(rt: &impl Print, alloc: Global, case: &str) -> Result<(), NetError> {
    let outcomes = outcomes(alloc, &PAIRS)?;
    let mut made = call!(
        rt,
        case,
        match case {
            "TableHandle::new" => TableHandle::new(outcomes),
            _ => TableHandle::with_hasher(outcomes, BuildHasherDefault::new()),
        }
    );
    let asked = ask_made(rt, alloc, &mut made);
    drop(made);
    asked
}

/// What a table answers for the addresses of these names.
pub fn ask_each(
    rt: &impl Print,
    alloc: Global,
    table: &mut TableHandle,
    labels: &[&str],
) -> Result<(), NetError> {
    for label in labels {
        let request = request(alloc, label)?;
        let _ = rt.print("  ");
        show(rt, table.send(&request));
    }
    Ok(())
}

fn ask_made(
    rt: &impl Print,
    alloc: Global,
    made: &mut Result<TableHandle, NetError>,
) -> Result<(), NetError> {
    match made {
        Ok(table) => {
            say(rt, &"a table");
            ask_each(rt, alloc, table, &["a", "b", "c"])
        }
        Err(error) => {
            say(rt, error);
            Ok(())
        }
    }
}

// What a table answers, and what it answers the next time.
fn send(rt: &impl Print, alloc: Global, case: &str) -> Result<(), NetError> {
    let (request, mut table) = both(request(alloc, "a"), table(alloc, &PAIRS))?;
    show(rt, call!(rt, case, table.send(&request)));
    show(rt, table.send(&request));
    drop(table);
    Ok(())
}

// What a recording handle answers, and what it keeps.
fn send_recorded(rt: &impl Print, alloc: Global, case: &str) -> Result<(), NetError> {
    let (request, table) = both(request(alloc, "a"), table(alloc, &PAIRS))?;
    let mut handle = Recorded::new(alloc, table);
    show(rt, call!(rt, case, handle.send(&request)));
    show_exchanges(rt, handle.exchanges());
    drop(handle);
    Ok(())
}

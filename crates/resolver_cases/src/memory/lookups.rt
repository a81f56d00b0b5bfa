//! Look-ups, bounds and attempts.
use crate::memory::marks::done;
use crate::parts::both;
use crate::sample::{address, five_addresses, name, one, one_address, query, with_answer};
use crate::shown::{Shown, say, show};
use hickory_proto_core::{Message, Name, NetError, OpCode, RData, RecordType};
use hickory_resolver::{Lookup, TtlBounds, TtlConfig, attempts};
use std::alloc::Global;
use std::net::Ipv4Addr;

/// Makes the call of a case, and says whether there is such a case.
pub fn make(rt: &impl Print, alloc: Global, case: &str) -> Result<bool, NetError> {
    match case {
        "Lookup::from_rdata" | "Lookup::new_with_max_ttl" | "Lookup::new_with_deadline" => {
            done(of_records(rt, alloc, case))
        }
        "Lookup::of_message" | "Lookup::of_hit" | "Lookup::of_response" => {
            done(of_message(rt, alloc, case))
        }
        "Lookup::append" => done(append(rt, alloc, case)),
        "Lookup::append_in_place" | "Lookup::extend_authorities" | "Lookup::extend_additionals" => {
            done(grow(rt, alloc, case))
        }
        "TtlConfig::with_query_type_ttl_bounds" => done(with_bounds(rt, alloc, case)),
        "attempts" => done(attempted(rt, alloc, case)),
        _ => Ok(false),
    }
}

fn of_records(rt: &impl Print, alloc: Global, case: &str) -> Result<(), NetError> {
    let (query, records) = both(query(alloc, "a"), one_address(alloc, "a"))?;
    match case {
        "Lookup::from_rdata" => {
            let data = RData::A(Ipv4Addr::LOCALHOST);
            show(
                rt,
                call!(rt, case, Lookup::from_rdata(alloc, query, data, 5)),
            );
        }
        "Lookup::new_with_max_ttl" => {
            show(
                rt,
                call!(rt, case, Lookup::new_with_max_ttl(query, records, 5)),
            );
        }
        _ => show(
            rt,
            call!(rt, case, Lookup::new_with_deadline(query, records, 9)),
        ),
    }
    Ok(())
}

// Of a message without a question.
fn of_message(rt: &impl Print, alloc: Global, case: &str) -> Result<(), NetError> {
    let empty = Message::response(alloc, 0, OpCode::Query);
    let message = with_answer(Ok(empty), address(alloc, "a", 60));
    let (query, message) = both(query(alloc, "a"), message)?;
    match case {
        "Lookup::of_message" => {
            show(rt, call!(rt, case, Lookup::of_message(query, message, 9)));
        }
        "Lookup::of_hit" => show(rt, call!(rt, case, Lookup::of_hit(query, message, 5))),
        _ => {
            let bounds = TtlConfig::default(alloc);
            show(
                rt,
                call!(rt, case, Lookup::of_response(&bounds, query, message, 5)),
            );
        }
    }
    Ok(())
}

fn append(rt: &impl Print, alloc: Global, case: &str) -> Result<(), NetError> {
    let (first, second) = both(one(alloc, "a"), one(alloc, "b"))?;
    show(rt, call!(rt, case, first.append(second)));
    Ok(())
}

fn grow(rt: &impl Print, alloc: Global, case: &str) -> Result<(), NetError> {
    let mut first = one(alloc, "a")?;
    let grown = show_grown(rt, alloc, case, &mut first);
    drop(first);
    grown
}

fn show_grown(
    rt: &impl Print,
    alloc: Global,
    case: &str,
    first: &mut Lookup,
) -> Result<(), NetError> {
    match case {
        "Lookup::append_in_place" => {
            let second = one(alloc, "b")?;
            show(rt, call!(rt, case, first.append_in_place(second)));
        }
        _ => {
            fill(alloc, first)?;
            let records = five_addresses(alloc)?;
            show(
                rt,
                call!(
                    rt,
                    case,
                    match case {
                        "Lookup::extend_authorities" => first.extend_authorities(records),
                        _ => first.extend_additionals(records),
                    }
                ),
            );
        }
    }
    first.show(rt);
    Ok(())
}

// A record in each of the other sections.
fn fill(alloc: Global, lookup: &mut Lookup) -> Result<(), NetError> {
    lookup.extend_authorities(one_address(alloc, "b")?)?;
    lookup.extend_additionals(one_address(alloc, "b")?)
}

// Bounds for one type: whether they were put in, and the greatest TTL of that type then.
fn with_bounds(rt: &impl Print, alloc: Global, case: &str) -> Result<(), NetError> {
    let bounds = TtlBounds::default().with_positive_max(60)?;
    let mut config = TtlConfig::default(alloc);
    let done = call!(
        rt,
        case,
        config.with_query_type_ttl_bounds(RecordType::A, bounds)
    );
    let is_done = done.is_ok();
    drop(done);
    let (_, greatest) = config.positive_response_ttl_bounds(RecordType::A);
    let _ = println!(rt; "{is_done} {greatest}");
    Ok(())
}

fn attempted(rt: &impl Print, alloc: Global, case: &str) -> Result<(), NetError> {
    let domain = name(alloc, "x")?;
    let search = vec![in alloc; name(alloc, "y")?]?;
    let asked = Name::from_ascii(alloc, "www")?;
    let names = call!(rt, case, attempts(alloc, asked, 1, Some(&domain), &search));
    match &names {
        Ok(names) => {
            for name in names {
                say(rt, name);
            }
        }
        Err(error) => say(rt, &NetError::from(*error)),
    }
    drop(names);
    drop(search);
    drop(domain);
    Ok(())
}

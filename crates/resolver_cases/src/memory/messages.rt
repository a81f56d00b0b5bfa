//! Messages that grow, shared addresses, and what responses come to.
use crate::memory::marks::done;
use crate::sample::{
    address, empty, five_addresses, glue, no_such_name, one_address, query, with_answer,
};
use crate::shown::{Shown, say, show, show_message, show_outcome};
use hickory_proto_core::{DnsError, DnsResponse, Glue, Message, NetError, Record};
use std::alloc::Global;

/// Makes the call of a case, and says whether there is such a case.
pub fn make(rt: &impl Print, alloc: Global, case: &str) -> Result<bool, NetError> {
    match case {
        "Message::add_query"
        | "Message::add_answer"
        | "Message::add_authority"
        | "Message::add_additional"
        | "Message::add_answers"
        | "Message::add_authorities"
        | "Message::add_additionals" => done(grow(rt, alloc, case)),
        "DnsError::from_response" => done(from_response(rt, alloc, case)),
        "Glue::new" | "Glue::to_vec" | "Glue::into_vec" => done(share(rt, alloc, case)),
        _ => Ok(false),
    }
}

// An empty message, or one that has records in each section where a list of them is added.
fn message_of(alloc: Global, case: &str) -> Result<Message, NetError> {
    match case {
        "Message::add_answers" | "Message::add_authorities" | "Message::add_additionals" => {
            let message = no_such_name(alloc, query(alloc, "x"));
            with_answer(message, address(alloc, "x", 60))
        }
        _ => empty(alloc, query(alloc, "a")),
    }
}

fn grow(rt: &impl Print, alloc: Global, case: &str) -> Result<(), NetError> {
    let mut message = message_of(alloc, case)?;
    let grown = show_grown(rt, alloc, case, &mut message);
    drop(message);
    grown
}

fn show_grown(
    rt: &impl Print,
    alloc: Global,
    case: &str,
    message: &mut Message,
) -> Result<(), NetError> {
    match case {
        "Message::add_query" => {
            let added = query(alloc, "b")?;
            show(rt, call!(rt, case, message.add_query(added)));
        }
        "Message::add_answers" | "Message::add_authorities" | "Message::add_additionals" => {
            let added = five_addresses(alloc)?;
            show(rt, call!(rt, case, add_all(case, message, added)));
        }
        _ => {
            let added = address(alloc, "a", 60)?;
            show(rt, call!(rt, case, add_one(case, message, added)));
        }
    }
    show_message(rt, message);
    Ok(())
}

fn add_one(case: &str, message: &mut Message, added: Record) -> Result<(), NetError> {
    match case {
        "Message::add_answer" => message.add_answer(added),
        "Message::add_authority" => message.add_authority(added),
        _ => message.add_additional(added),
    }
}

fn add_all(case: &str, message: &mut Message, added: Vec<Record>) -> Result<(), NetError> {
    match case {
        "Message::add_answers" => message.add_answers(added),
        "Message::add_authorities" => message.add_authorities(added),
        _ => message.add_additionals(added),
    }
}

// What a response that there is no such name comes to.
fn from_response(rt: &impl Print, alloc: Global, case: &str) -> Result<(), NetError> {
    let response = DnsResponse::from_message(no_such_name(alloc, query(alloc, "x"))?);
    let outcome = call!(rt, case, DnsError::from_response(response));
    show_outcome(rt, &outcome);
    drop(outcome);
    Ok(())
}

impl Shown for Glue {
    fn show(&self, rt: &impl Print) {
        let _ = println!(rt; "{} shared", self.len());
    }
}

// Addresses that are shared, or are got back where another copy holds the memory too, twenty seconds older.
fn share(rt: &impl Print, alloc: Global, case: &str) -> Result<(), NetError> {
    if case == "Glue::new" {
        let records = one_address(alloc, "n")?;
        show(rt, call!(rt, case, Glue::new(records)));
        return Ok(());
    }
    let shared = glue(alloc)?;
    let mut older = shared.clone()?;
    older.decrement_ttl(20);
    match case {
        "Glue::to_vec" => show(rt, call!(rt, case, older.to_vec())),
        _ => show(rt, call!(rt, case, older.into_vec())),
    }
    drop(shared);
    Ok(())
}

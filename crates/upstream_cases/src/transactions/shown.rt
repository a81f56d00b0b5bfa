//! What a transaction tells, as lines.
use hickory_resolver_transactions::{Outcome, Transaction, Transport, Try, Wanted};
use std::alloc::{AllocError, Global};

/// What is to be done next: its outcome, a round that is to begin, a try that is wanted, or up to when it waits.
pub fn show(rt: &impl Print, alloc: Global, transaction: &Transaction) -> Result<(), AllocError> {
    if let Some(outcome) = transaction.outcome() {
        show_outcome(rt, outcome);
    } else if transaction.wants_round() {
        let left = transaction.places_left(alloc)?;
        show_left(rt, &left);
    } else if let Some(wanted) = transaction.wanted() {
        show_wanted(rt, &wanted);
    } else {
        show_deadline(rt, transaction.next_deadline());
    }
    Ok(())
}

fn show_outcome(rt: &impl Print, outcome: Outcome) {
    let _ = match outcome {
        Outcome::Reply(reply) => println!(rt; "  over: reply {reply}"),
        Outcome::Cut(reply) => println!(rt; "  over: cut {reply}"),
        Outcome::Code(reply) => println!(rt; "  over: code {reply}"),
        Outcome::Unreachable => println!(rt; "  over: unreachable"),
        Outcome::Timeout => println!(rt; "  over: timeout"),
    };
}

fn show_left(rt: &impl Print, left: &[usize]) {
    let _ = rt.print("  a round of");
    for place in left {
        let _ = print!(rt; " {place}");
    }
    let _ = rt.println("");
}

fn transport_word(transport: Transport) -> &'static str {
    match transport {
        Transport::Udp => "UDP",
        Transport::Tcp => "TCP",
    }
}

fn show_wanted(rt: &impl Print, wanted: &Wanted) {
    let place = wanted.place;
    let transport = transport_word(wanted.way.transport);
    let opt = if wanted.way.with_opt {
        ""
    } else {
        " without OPT"
    };
    let _ = println!(rt; "  send to {place} by {transport}{opt}");
}

fn show_deadline(rt: &impl Print, due: Option<u64>) {
    let _ = match due {
        Some(due) => println!(rt; "  waits up to {due}"),
        None => println!(rt; "  waits for a channel"),
    };
}

/// Whether there is a try, and whether its letters are varied.
pub fn show_try(rt: &impl Print, tried: Option<Try>) {
    let _ = match tried {
        None => rt.println("  no try"),
        Some(tried) if tried.form.letters.is_some() => rt.println("  a try with varied letters"),
        Some(_) => rt.println("  a try"),
    };
}

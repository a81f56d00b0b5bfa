//! The texts of answers. A line that is not written is missed by whoever reads the text.
use hickory_proto_core::{
    DnsError, DnsResponse, Exchange, Message, NetError, NoRecords, Outcome, Query, Record,
};
use hickory_resolver::Lookup;
use std::fmt::{Debug, Display};

/// What a call makes, and the text of it.
pub trait Shown {
    /// Prints the value, each of its lines whole.
    fn show(&self, rt: &impl Print);
}

/// What was made, or the error.
pub fn show<T: Shown + Drop, E: Display + Drop>(rt: &impl Print, answer: Result<T, E>) {
    show_made(rt, &answer);
    // `drop` costs the prover less than the end of the block.
    drop(answer);
}

/// The text that was made, or the error as `Debug` prints it.
pub fn show_named<T: Display + Drop, E: Debug + Drop>(rt: &impl Print, answer: Result<T, E>) {
    match &answer {
        Ok(text) => say(rt, text),
        Err(error) => say_value(rt, error),
    }
    drop(answer);
}

/// The text that was made, or the error.
pub fn show_text<T: Display + Drop, E: Display + Drop>(rt: &impl Print, answer: Result<T, E>) {
    match &answer {
        Ok(text) => say(rt, text),
        Err(error) => say(rt, error),
    }
    drop(answer);
}

/// What was made, or the error, of an answer that is kept.
pub fn show_made<T: Shown, E: Display>(rt: &impl Print, answer: &Result<T, E>) {
    match answer {
        Ok(made) => made.show(rt),
        Err(error) => say(rt, error),
    }
}

/// A line.
pub fn say(rt: &impl Print, line: &impl Display) {
    let _ = println!(rt; "{line}");
}

/// A value, as `Debug` prints it.
pub fn say_value(rt: &impl Print, value: &impl Debug) {
    let _ = println!(rt; "{value:?}");
}

/// A line of a part of an answer.
pub fn say_part(rt: &impl Print, what: &str, part: &impl Display) {
    let _ = println!(rt; "  {what} {part}");
}

/// The question that a look-up or a call waits for.
pub fn say_waits(rt: &impl Print, question: &Query) {
    let _ = println!(rt; "waits for {question}");
}

impl Shown for () {
    fn show(&self, rt: &impl Print) {
        say(rt, &"done");
    }
}

// How many records there are, and the records.
impl Shown for Vec<Record> {
    fn show(&self, rt: &impl Print) {
        say(rt, &self.len());
        show_records(rt, "record", self);
    }
}

fn show_records(rt: &impl Print, section: &str, records: &[Record]) {
    for record in records {
        say_part(rt, section, record);
    }
}

/// The questions and the records of a message.
pub fn show_message(rt: &impl Print, message: &Message) {
    for query in &message.queries {
        say_part(rt, "question", query);
    }
    show_records(rt, "answer", &message.answers);
    show_records(rt, "authority", &message.authorities);
    show_records(rt, "additional", &message.additionals);
}

impl Shown for Message {
    fn show(&self, rt: &impl Print) {
        say(rt, &"a message");
        show_message(rt, self);
    }
}

impl Shown for DnsResponse {
    fn show(&self, rt: &impl Print) {
        say(rt, &"an answer");
    }
}

// Up to which moment a look-up may be used, and its message.
impl Shown for Lookup {
    fn show(&self, rt: &impl Print) {
        let _ = println!(rt; "until {}", self.valid_until());
        show_message(rt, self.message());
    }
}

/// An answer, or the error and what it says.
pub fn show_outcome<T: Shown>(rt: &impl Print, outcome: &Result<T, NetError>) {
    show_made(rt, outcome);
    if let Err(NetError::Dns(DnsError::NoRecordsFound(none))) = outcome {
        show_none(rt, none);
    }
}

// For how many seconds a negative answer may be kept, its question, how many servers it refers to, and its records.
fn show_none(rt: &impl Print, none: &NoRecords) {
    let _ = println!(rt; "  for {}: {}", none.negative_ttl.unwrap_or(0), none.query);
    if let Some(soa) = &none.soa {
        say_part(rt, "soa", soa);
    }
    if let Some(servers) = &none.ns {
        for server in servers {
            let addresses = server.glue.len();
            let _ = println!(rt; "  server {} with {addresses} addresses", server.ns);
        }
    }
    if let Some(authorities) = &none.authorities {
        show_records(rt, "authority", authorities);
    }
}

/// The questions that were asked, and whether each was answered or why not.
pub fn show_exchanges(rt: &impl Print, exchanges: &[Exchange]) {
    for exchange in exchanges {
        show_answered(rt, "asked", &exchange.query, &exchange.outcome);
    }
}

/// A question, and whether it is answered or why not.
pub fn show_answered(rt: &impl Print, what: &str, query: &Query, outcome: &Outcome) {
    let _ = rt.print("  ");
    let _ = rt.print(what);
    let _ = rt.print(" ");
    let _ = rt.print(query);
    let _ = rt.print(": ");
    match outcome {
        Ok(_) => say(rt, &"answered"),
        Err(error) => say(rt, error),
    }
}

//! What came of octets, as lines.
use hickory_proto_core::{Query, Record};
use hickory_proto_wire::WireMessage;
use hickory_resolver_tries::{Reply, ReplyOutcome};
use std::alloc::{AllocError, Global};

/// A word and octets as hex digits.
pub fn show_octets(
    rt: &impl Print,
    alloc: Global,
    word: &str,
    octets: &[u8],
) -> Result<(), AllocError> {
    let digits = hex::encode(alloc, octets)?;
    let _ = println!(rt; "{word} {digits}");
    Ok(())
}

// What a reply comes to, in a word.
fn outcome_word(outcome: ReplyOutcome) -> &'static str {
    match outcome {
        ReplyOutcome::Truncated => "believed: truncated",
        ReplyOutcome::BadRest => "believed: no message",
        ReplyOutcome::WithoutOpt => "believed: again without OPT",
        ReplyOutcome::Code(_) => "believed: another code",
        ReplyOutcome::Lame => "believed: lame",
        ReplyOutcome::Answer => "believed: an answer",
        ReplyOutcome::Negative => "believed: a negative answer",
    }
}

/// The same of a reply that was read.
pub fn read_word(read: &Result<Reply, AllocError>) -> &'static str {
    match read {
        Ok(reply) => outcome_word(reply.outcome),
        Err(_) => "out of memory",
    }
}

/// What a reply comes to, and its message.
pub fn show_read(rt: &impl Print, read: &Result<Reply, AllocError>) {
    let _ = rt.println(read_word(read));
    if let Ok(reply) = read {
        show_message(rt, &reply.message);
    }
}

/// A message that a stream had, and whether it had one.
pub fn show_taken(
    rt: &impl Print,
    alloc: Global,
    message: &Option<Vec<u8>>,
) -> Result<bool, AllocError> {
    if let Some(octets) = message {
        show_octets(rt, alloc, "message", octets)?;
        return Ok(true);
    }
    Ok(false)
}

// Its questions and its answers.
fn show_message(rt: &impl Print, message: &Option<WireMessage>) {
    if let Some(read) = message {
        show_queries(rt, &read.message.queries);
        show_records(rt, &read.message.answers);
    }
}

fn show_queries(rt: &impl Print, queries: &[Query]) {
    for query in queries {
        let _ = println!(rt; "  asks {query}");
    }
}

fn show_records(rt: &impl Print, records: &[Record]) {
    for shown in records {
        let _ = println!(rt; "  answer {shown}");
    }
}

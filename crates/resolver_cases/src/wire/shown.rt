//! Messages as lines, and the octets that were written.
use hickory_proto_core::{Metadata, Query, Record};
use hickory_proto_wire::{Edns, ToWireError, WireMessage};
use std::alloc::{AllocError, Global};

/// A line for the header, for each question, each record, and what OPT says.
pub fn show_message(rt: &impl Print, message: &WireMessage) {
    show_header(rt, &message.message.metadata);
    show_flags(rt, message);
    show_queries(rt, &message.message.queries);
    show_records(rt, "answer", &message.message.answers);
    show_records(rt, "authority", &message.message.authorities);
    show_records(rt, "additional", &message.message.additionals);
    show_edns(rt, &message.edns);
}

fn show_header(rt: &impl Print, metadata: &Metadata) {
    let (id, kind) = (metadata.id, metadata.op_code.code());
    let code = metadata.response_code;
    let _ = println!(rt; "id {id}, kind {kind}, {code}");
}

// The bits that are set, as RFC 1035, section 4.1.1, and RFC 4035 call them.
fn show_flags(rt: &impl Print, message: &WireMessage) {
    let metadata = &message.message.metadata;
    let _ = rt.print("set:");
    for (is_set, word) in [
        (message.is_response, " QR"),
        (metadata.authoritative, " AA"),
        (metadata.truncation, " TC"),
        (metadata.recursion_desired, " RD"),
        (metadata.recursion_available, " RA"),
        (message.reserved, " Z"),
        (message.authentic_data, " AD"),
        (message.checking_disabled, " CD"),
    ] {
        if is_set {
            let _ = rt.print(word);
        }
    }
    let _ = rt.println("");
}

fn show_queries(rt: &impl Print, queries: &[Query]) {
    for query in queries {
        let _ = println!(rt; "asks {query}");
    }
}

fn show_records(rt: &impl Print, section: &str, records: &[Record]) {
    for shown in records {
        let _ = println!(rt; "{section} {shown}");
    }
}

fn show_edns(rt: &impl Print, edns: &Option<Edns>) {
    if let Some(edns) = edns {
        let (size, version, flags) = (edns.size, edns.version, edns.flags);
        let options = edns.options.len();
        let _ = println!(rt;
            "OPT of size {size}, version {version}, flags {flags}, {options} octets of options"
        );
    }
}

/// Whether what was written is what was read, and else its octets as hex digits, 16 a line.
pub fn show_written(
    rt: &impl Print,
    alloc: Global,
    written: Result<Vec<u8>, ToWireError>,
    octets: &[u8],
) {
    match &written {
        Ok(bytes) if bytes.as_slice() == octets => {
            let _ = rt.println("written as it was read");
        }
        Ok(bytes) => show_octets(rt, alloc, bytes),
        Err(error) => {
            let _ = println!(rt; "not written: {error}");
        }
    }
    // `drop` costs the prover less than the end of the block.
    drop(written);
}

fn show_octets(rt: &impl Print, alloc: Global, octets: &[u8]) {
    let _ = println!(rt; "written: {} octets", octets.len());
    for part in octets.chunks(16) {
        show_digits(rt, hex::encode(alloc, part));
    }
}

fn show_digits(rt: &impl Print, digits: Result<String, AllocError>) {
    match &digits {
        Ok(digits) => {
            let _ = rt.println(digits.as_str());
        }
        Err(error) => {
            let _ = println!(rt; "{error}");
        }
    }
    drop(digits);
}

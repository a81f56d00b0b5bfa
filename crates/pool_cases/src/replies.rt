//! Replies: the message that was sent, turned round, with a code, records, and what is wrong with it.
use crate::words::{behind, has_word, number_behind, octets_of, put};
use hickory_proto_core::{DNSClass, Name, OpCode, Query, Record, RecordType, ResponseCode};
use hickory_proto_wire::{Edns, WireMessage};
use replay_script::Section;
use replay_script::line::split;
use replay_script::record_line::read_record;
use std::alloc::{AllocError, Global};

/// A reply whose records are still to come.
#[derive(Drop)]
pub struct OpenReply {
    /// The channel that it comes on.
    pub channel: u64,
    /// When it comes.
    pub moment: u64,
    /// What is said of it.
    pub words: String,
    message: WireMessage,
}

/// A reply to the octets of a message, before anything is done to it.
pub fn reply_to(
    alloc: Global,
    channel: u64,
    moment: u64,
    words: &str,
    sent: &[u8],
) -> anyhow::Result<OpenReply> {
    let words = String::from_str(alloc, words)?;
    let message = WireMessage::from_wire(alloc, sent)?;
    Ok(OpenReply {
        channel,
        moment,
        words,
        message,
    })
}

/// One record more, of the words of a line behind the first.
pub fn add_record(records: &mut Vec<Record>, alloc: Global, line: &str) -> anyhow::Result<()> {
    let new = record_of(alloc, line)?;
    records.push(new)?;
    Ok(())
}

fn record_of(alloc: Global, line: &str) -> anyhow::Result<Record> {
    let fields = split(alloc, line)?;
    match read_record(alloc, fields.get(1..).unwrap_or(&[])) {
        Ok(new) => Ok(new),
        Err(_) => Err(anyhow::anyhow!("a record")),
    }
}

impl OpenReply {
    /// What is said of it is done to the message that was sent.
    pub fn twist(&mut self, alloc: Global) -> anyhow::Result<()> {
        turn(alloc, &mut self.message, &self.words)?;
        twist_question(alloc, &mut self.message, &self.words)
    }

    /// The records of a section.
    pub fn section(&mut self, section: Section) -> &mut Vec<Record> {
        match section {
            Section::Answer => &mut self.message.message.answers,
            Section::Authority => &mut self.message.message.authorities,
            Section::Additional => &mut self.message.message.additionals,
        }
    }

    /// Its octets.
    pub fn octets(&self, alloc: Global) -> anyhow::Result<Vec<u8>> {
        let mut octets = self.message.to_wire(alloc, 65535)?;
        twist_octets(alloc, &mut octets, &self.words)?;
        Ok(octets)
    }
}

// A response of a server that recurses, with the code that is said, or NOERROR.
fn turn(alloc: Global, message: &mut WireMessage, words: &str) -> anyhow::Result<()> {
    message.is_response = !has_word(words, "noQR");
    put(&mut message.edns, edns_of(alloc, has_word(words, "opt")));
    let head = &mut message.message.metadata;
    head.id = head.id.wrapping_add(shift_of(words)?);
    head.recursion_available = !has_word(words, "RA0");
    head.authoritative = has_word(words, "AA");
    head.truncation = has_word(words, "TC");
    head.response_code = code_of(words);
    if has_word(words, "status") {
        head.op_code = OpCode::from_code(2);
    }
    Ok(())
}

// By how much the number of the message is another one: `id` by one, `id+` by one more than is said.
fn shift_of(words: &str) -> anyhow::Result<u16> {
    if has_word(words, "id") {
        return Ok(1);
    }
    match behind(words, "id+") {
        Some(digits) => Ok((digits.parse::<u64>()? % 65535) as u16 + 1),
        None => Ok(0),
    }
}

fn edns_of(alloc: Global, is_there: bool) -> Option<Edns> {
    if !is_there {
        return None;
    }
    Some(Edns {
        size: 1232,
        version: 0,
        flags: 0,
        options: Vec::new(alloc),
    })
}

fn code_of(words: &str) -> ResponseCode {
    for word in words.split_whitespace() {
        if let Some(code) = ResponseCode::from_word(word) {
            return code;
        }
    }
    ResponseCode::NoError
}

// Another question, none, or two.
fn twist_question(alloc: Global, message: &mut WireMessage, words: &str) -> anyhow::Result<()> {
    let queries = &mut message.message.queries;
    for query in queries.iter_mut() {
        twist_query(alloc, query, words)?;
    }
    if has_word(words, "twoq") {
        double(queries)?;
    }
    if has_word(words, "noq") || has_word(words, "header") {
        queries.clear();
    }
    Ok(())
}

fn twist_query(alloc: Global, query: &mut Query, words: &str) -> anyhow::Result<()> {
    if has_word(words, "type") {
        query.query_type = RecordType::TXT;
    }
    if has_word(words, "class") {
        query.query_class = DNSClass::CH;
    }
    if has_word(words, "name") {
        let forged = Name::from_ascii(alloc, "forged.test.")?;
        put(&mut query.name, forged);
    }
    Ok(())
}

fn double(queries: &mut Vec<Query>) -> Result<(), AllocError> {
    let mut copies = queries.clone()?;
    let done = queries.append(&mut copies);
    drop(copies);
    done
}

// Other letters, garbage behind the question, octets behind the message, and a message that is cut.
fn twist_octets(alloc: Global, octets: &mut Vec<u8>, words: &str) -> anyhow::Result<()> {
    if has_word(words, "letters") {
        change_letter(octets);
    }
    if has_word(words, "garbage") {
        say_one_answer(octets);
        octets.push(255)?;
    }
    if has_word(words, "trailing") {
        octets.push(0)?;
    }
    let len = octets.len() as u64;
    octets.truncate(number_behind(words, "cut=", len)? as usize);
    if let Some(digits) = behind(words, "behind=") {
        octets.extend_from_slice(&octets_of(alloc, digits)?)?;
    }
    Ok(())
}

// The first letter of the name in the question is of the other case.
fn change_letter(octets: &mut [u8]) {
    if let Some(letter) = octets.get_mut(13) {
        *letter ^= 32;
    }
}

// The header says that there is a record in the answer section.
fn say_one_answer(octets: &mut [u8]) {
    if let Some(count) = octets.get_mut(7) {
        *count = 1;
    }
}

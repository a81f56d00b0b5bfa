//! What the lines of a case say.
use crate::words::has_word;
use anyhow::Context;
use hickory_proto_core::{DnsRequestOptions, Name, Query, RecordType};
use hickory_resolver_tries::{DnssecOptions, PoolQuestion, TryForm};
use std::alloc::Global;

/// Octets in hex digits, with spaces where one likes.
pub fn octets_of(alloc: Global, text: &str) -> anyhow::Result<Vec<u8>> {
    let mut octets = Vec::new(alloc);
    for word in text.split_whitespace() {
        let bytes = hex::decode(alloc, word)?;
        octets.extend_from_slice(&bytes)?;
    }
    Ok(octets)
}

/// A name, a type, and of the words `edns`, `do`, `cd`, `ad` and `norec` those that hold.
pub fn question_of(alloc: Global, text: &str) -> anyhow::Result<PoolQuestion> {
    let mut words = text.split_whitespace();
    let name = words.next().context("a name")?;
    let kind = words.next().context("a type")?;
    let kind = RecordType::from_word(kind).context("a type that is known")?;
    let name = Name::from_ascii(alloc, name)?;
    let options = DnsRequestOptions {
        recursion_desired: !has_word(text, "norec"),
        use_edns: has_word(text, "edns"),
        edns_payload_len: 1232,
        case_randomization: false,
    };
    let dnssec = DnssecOptions {
        dnssec_ok: has_word(text, "do"),
        checking_disabled: has_word(text, "cd"),
        authentic_data: has_word(text, "ad"),
    };
    Ok(PoolQuestion::new(Query::query(name, kind), options, dnssec))
}

/// `id=` and a number, `letters=` and bits in hex digits, and `plain` for a try without OPT.
pub fn form_of(alloc: Global, text: &str) -> anyhow::Result<TryForm> {
    let mut form = TryForm {
        id: 0,
        letters: None,
        with_opt: !has_word(text, "plain"),
    };
    for word in text.split_whitespace() {
        if let Some(digits) = word.strip_prefix("id=") {
            form.id = digits.parse::<u16>().unwrap_or(0);
        }
        if let Some(digits) = word.strip_prefix("letters=") {
            form.letters = Some(letters_of(alloc, digits)?);
        }
    }
    Ok(form)
}

fn letters_of(alloc: Global, digits: &str) -> anyhow::Result<[u8; 32]> {
    let bytes = hex::decode(alloc, digits)?;
    let mut letters = [0; 32];
    for i in 0..32 {
        letters[i] = bytes.get(i).copied().unwrap_or(0);
    }
    Ok(letters)
}

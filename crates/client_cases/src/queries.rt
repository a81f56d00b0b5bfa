//! Queries of clients: each line as what came from one, and what it is, and the reply that refuses it.
use crate::words::{octets_of, show_octets};
use client_queries::{ClientQuery, Refusal, Verdict, datagram_limit, read_query, refuse};
use std::alloc::{AllocError, Global};

/// Each line.
pub fn run(rt: &impl Print, alloc: Global, cases: &str) -> anyhow::Result<()> {
    for line in cases.lines() {
        take(rt, alloc, line)?;
    }
    Ok(())
}

// A comment is printed as it stands.
fn take(rt: &impl Print, alloc: Global, line: &str) -> anyhow::Result<()> {
    if line.starts_with("#") {
        let _ = rt.println(line);
        return Ok(());
    }
    let octets = octets_of(alloc, line)?;
    Ok(show(rt, alloc, &octets)?)
}

fn show(rt: &impl Print, alloc: Global, octets: &[u8]) -> Result<(), AllocError> {
    let Some(query) = read_query(octets) else {
        let _ = rt.println("dropped");
        return Ok(());
    };
    match query.verdict {
        Verdict::Refused(refusal) => show_refused(rt, alloc, octets, &query, refusal)?,
        Verdict::Any => show_asked(rt, "any", &query),
        Verdict::Statistics => show_asked(rt, "statistics", &query),
        Verdict::Asked => show_asked(rt, "asked", &query),
    }
    Ok(())
}

fn show_refused(
    rt: &impl Print,
    alloc: Global,
    octets: &[u8],
    query: &ClientQuery,
    refusal: Refusal,
) -> Result<(), AllocError> {
    let reply = refuse(alloc, octets, query, refusal)?;
    show_octets(rt, alloc, word_of(refusal), reply.as_slice())
}

fn word_of(refusal: Refusal) -> &'static str {
    match refusal {
        Refusal::FormErr => "FORMERR",
        Refusal::NotImp => "NOTIMP",
        Refusal::Refused => "REFUSED",
        Refusal::NotAuth => "NOTAUTH",
        Refusal::BadVers => "BADVERS",
    }
}

// What is asked, and how the reply may be sent.
fn show_asked(rt: &impl Print, word: &str, query: &ClientQuery) {
    let _ = rt.print(word);
    let _ = rt.print(", up to ");
    let _ = rt.print(query.question_end.unwrap_or(0));
    let _ = rt.print(", replied in ");
    let _ = rt.print(datagram_limit(query.edns));
    if query.flags / 256 % 2 == 0 {
        let _ = rt.print(", without recursion");
    }
    if is_dnssec_ok(query) {
        let _ = rt.print(", with DNSSEC");
    }
    let _ = rt.println("");
}

fn is_dnssec_ok(query: &ClientQuery) -> bool {
    match query.edns {
        Some(edns) => edns.dnssec_ok,
        None => false,
    }
}

//! The way of an answer: from the asked name, by aliases, to the name where they end.
ghost use Rattle.std.specs.Prelude.{◌≡◌, ◌++◌, length, IfOk, OnOk};
ghost use Rattle.std.specs.List.{list_any};
ghost use Rattle.hickory_proto_core.specs.Records.{data_of};
ghost use Rattle.whole_replies.specs.Ways.{names_from, names_of, points_to, leads, leads_along, is_above, is_below, redirects, is_signature, is_kept};

use crate::signatures::{DNAME, RRSIG, signs};
use hickory_proto_core::{Name, Query, RData, Record};
use hickory_resolver_tries::chain::{alias_at, follows_aliases};
use hickory_resolver_tries::outcome::is_asked;
use std::alloc::{AllocError, Global};

// How many names are on the way from there on.
fn count_from(name: &Name, answers: &[Record]) -> usize
    ensures { result ≡ length (names_from name.now answers.now) }
{
    let mut reached = name;
    let mut count = 1;
    for found in answers {
        if let Some(target) = alias_at(reached, found) {
            reached = target;
            count += 1;
        }
    }
    count
}

// How many names are on the way of a question's answer.
pub(crate) fn count_names(query: &Query, answers: &[Record]) -> usize
    ensures { result ≡ length (names_of query.now answers.now) }
{
    if follows_aliases(query) {
        count_from(&query.name, answers)
    } else {
        1
    }
}

fn push_names(names: &mut Vec<Name>, name: &Name, answers: &[Record]) -> Result<(), AllocError>
    ensures { OnOk result (names.new.items ≡ names.old.items ++ names_from name.now answers.now) }
{
    let mut reached = name;
    for found in answers {
        if let Some(target) = alias_at(reached, found) {
            names.push(Clone::clone(reached)?)?;
            reached = target;
        }
    }
    names.push(Clone::clone(reached)?)?;
    Ok(())
}

// The names on the way of a question's answer.
pub(crate) fn names_of(
    alloc: Global,
    query: &Query,
    answers: &[Record],
) -> Result<Vec<Name>, AllocError>
    ensures { IfOk result (λ names. names.items ≡ names_of query.now answers.now) }
{
    let mut names = Vec::new(alloc);
    let passed = if follows_aliases(query) { answers } else { &[] };
    push_names(&mut names, &query.name, passed)?;
    Ok(names)
}

fn points_to(name: &Name, rdata: &RData) -> bool
    ensures { result ≡ points_to name.now (data_of rdata.now) }
{
    match rdata {
        RData::CNAME(target) => target == name,
        _ => false,
    }
}

fn leads(from: &Name, to: &Name, found: &Record) -> bool
    ensures { result ≡ leads from.now to.now found.now }
{
    *from == found.name && points_to(to, &found.rdata)
}

// Whether it is an alias from a name on the way to the next one.
fn leads_along(names: &[Name], found: &Record) -> bool
    ensures { result ≡ leads_along names.now found.now }
{
    let mut steps = names.iter().zip(names.iter().skip(1));
    steps.any(|(from, to)| leads(from, to, found))
}

// Whether its owner is a name on the way, or above one.
fn is_above(names: &[Name], found: &Record) -> bool
    ensures { result ≡ is_above names.now found.now }
{
    names.iter().any(|name| found.name.zone_of(name))
}

fn is_below(owner: &Name, name: &Name) -> bool
    ensures { result ≡ is_below owner.now name.now }
{
    owner.zone_of(name) && owner != name
}

// Whether a name on the way is below it.
fn is_above_some(names: &[Name], owner: &Name) -> bool
    ensures { result ≡ list_any (is_below owner.now) names.now }
{
    names.iter().any(|name| is_below(owner, name))
}

// Whether an alias on the way was made of it.
fn redirects(names: &[Name], found: &Record) -> bool
    ensures { result ≡ redirects names.now found.now }
{
    found.record_type().code() == DNAME && is_above_some(names, &found.name)
}

fn is_signature(query: &Query, names: &[Name], found: &Record) -> bool
    ensures { result ≡ is_signature query.now names.now found.now }
{
    found.record_type().code() == RRSIG && signs(query, found) && is_above(names, found)
}

// Whether a record among the answers is kept.
pub(crate) fn is_kept(
    query: &Query,
    last: &Name,
    dnssec: bool,
    names: &[Name],
    found: &Record,
) -> bool
    ensures { result ≡ is_kept query.now last.now dnssec names.now found.now }
{
    leads_along(names, found)
        || is_asked(query, last, found)
        || redirects(names, found)
        || (dnssec && is_signature(query, names, found))
}

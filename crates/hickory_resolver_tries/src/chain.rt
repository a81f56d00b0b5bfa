//! Where the aliases among answers end (RFC 1034, section 3.6.2).
ghost use Rattle.std.specs.Prelude.{◌≡◌, option_copied, is_some};
ghost use Rattle.hickory_proto_core.specs.Name.{name_eq};
ghost use Rattle.hickory_proto_core.specs.Records.{data_of};
ghost use Rattle.hickory_resolver_model.specs.AliasWalk.{follows_aliases, walk_of, walk_from, is_moved};
ghost use Rattle.hickory_resolver_tries.specs.Chain.{target_if, alias_at, next_name};

use hickory_proto_core::{Name, Query, RData, Record, RecordType};

// The target of an alias that the reached name owns.
fn target_if(owns: bool, rdata: &RData) -> Option<&Name>
    ensures { option_copied result ≡ target_if owns (data_of rdata.now) }
{
    match rdata {
        RData::CNAME(target) if owns => Some(target),
        _ => None,
    }
}

/// The target of a record, where it is an alias of the name that was reached.
pub fn alias_at<'a>(reached: &Name, found: &'a Record) -> Option<&'a Name>
    ensures { option_copied result ≡ alias_at reached.now found.now }
{
    let owns = *reached == found.name;
    target_if(owns, &found.rdata)
}

// The name that is reached behind a record, and whether it led on.
fn next_name<'a>(reached: &'a Name, found: &'a Record) -> (&'a Name, bool)
    ensures name { result.0.now ≡ next_name reached.now found.now }
    ensures led { result.1 ≡ is_some (alias_at reached.now found.now) }
{
    match alias_at(reached, found) {
        Some(target) => (target, true),
        None => (reached, false),
    }
}

/// Whether aliases lead a question on: all but one for CNAME records or for records of any type (RFC 1034, section
/// 3.6.2).
pub fn follows_aliases(query: &Query) -> bool
    ensures { result ≡ follows_aliases query.now }
{
    if query.query_type == RecordType::ANY {
        return false;
    }
    query.query_type != RecordType::CNAME
}

// The same of every question.
fn end_from<'a>(name: &'a Name, answers: &'a [Record]) -> (&'a Name, bool)
    ensures last { result.0.now ≡ (walk_from 0 name.now name.now answers.now).last }
    ensures moved { result.1 ≡ is_moved (walk_from 0 name.now name.now answers.now) }
{
    let mut reached = name;
    let mut moved = false;
    for found in answers {
        let (next, led) = next_name(reached, found);
        reached = next;
        moved = moved || led;
    }
    (reached, moved)
}

/// The name where the aliases among the answers end, each behind the one that leads to it, and whether there are some.
pub fn end_of<'a>(query: &'a Query, answers: &'a [Record]) -> (&'a Name, bool)
    ensures last { result.0.now ≡ (walk_of query.now answers.now).last }
    ensures moved { result.1 ≡ is_moved (walk_of query.now answers.now) }
{
    if follows_aliases(query) {
        end_from(&query.name, answers)
    } else {
        (&query.name, false)
    }
}

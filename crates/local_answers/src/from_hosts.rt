//! What the table of hosts has for a question.
ghost use Rattle.std.specs.Prelude.{◌≡◌, ◌||◌, [], IsOk, IfOk};
ghost use Rattle.std.specs.Option.{is_some};
ghost use Rattle.hickory_resolver_model.specs.Hosts.{HostsHave};
ghost use Rattle.local_answers.specs.FromHosts.{IsFromHosts, as_type, chosen, told};

use crate::replies::{answer, copy_of, no_records};
use hickory_proto_core::{Query, RecordType, ResponseCode};
use hickory_resolver_hosts::Hosts;
use hickory_resolver_lookup::Lookup;
use std::alloc::{AllocError, Global};
use std::hash::BuildHasher;
use whole_replies::KeptReply;

// What the hosts have for a question, asked for this type.
fn lookup<S: BuildHasher>(
    hosts: &Hosts<S>,
    query: &Query,
    query_type: RecordType,
    now: u64,
) -> Result<Option<Lookup>, AllocError>
    ensures { IfOk result (HostsHave (as_type query_type query.now) now hosts.now) }
{
    let asked = Query {
        name: copy_of(&query.name)?,
        query_type,
        query_class: query.query_class,
    };
    match hosts.lookup_static_host(&asked, now) {
        Ok(found) => Ok(found),
        Err(_) => Err(AllocError),
    }
}

// Of the three look-ups of a name that of the asked type.
fn chosen(
    query: &Query,
    v4: Option<Lookup>,
    v6: Option<Lookup>,
    names: Option<Lookup>,
) -> Option<Lookup>
    ensures { result ≡ chosen query.now v4 v6 names }
{
    match query.query_type.code() {
        1 => v4,
        28 => v6,
        12 => names,
        _ => None,
    }
}

// Whether one of the three look-ups has something.
fn is_any(v4: &Option<Lookup>, v6: &Option<Lookup>, names: &Option<Lookup>) -> bool
    ensures { result ≡ (is_some v4.now || is_some v6.now || is_some names.now) }
{
    v4.is_some() || v6.is_some() || names.is_some()
}

// What is told of a name, given its look-up of the asked type, and whether the hosts have the name.
fn told(alloc: Global, found: Option<Lookup>, known: bool) -> Option<KeptReply>
    ensures { result ≡ told found known }
{
    match found {
        Some(found) => {
            let message = found.into_message();
            Some(answer(alloc, message.answers))
        }
        None => {
            if known {
                Some(no_records(alloc, ResponseCode::NoError))
            } else {
                None
            }
        }
    }
}

/// What the hosts tell: a name that they have, or the name of an address that they have, is answered by them, whatever
/// type is asked. Where they have nobody it takes no memory.
pub fn hosts_reply<S: BuildHasher>(
    alloc: Global,
    hosts: &Hosts<S>,
    query: &Query,
    now: u64,
) -> Result<Option<KeptReply>, AllocError>
    ensures found { IfOk result (IsFromHosts query.now now hosts.now) }
    ensures nobody { hosts.now ≡ [] → IsOk result }
{
    if hosts.is_empty() {
        return Ok(None);
    }
    let v4 = match lookup(hosts, query, RecordType::A, now) {
        Ok(found) => found,
        Err(error) => return Err(error),
    };
    let v6 = match lookup(hosts, query, RecordType::AAAA, now) {
        Ok(found) => found,
        Err(error) => return Err(error),
    };
    let names = match lookup(hosts, query, RecordType::PTR, now) {
        Ok(found) => found,
        Err(error) => return Err(error),
    };
    let known = is_any(&v4, &v6, &names);
    Ok(told(alloc, chosen(query, v4, v6, names), known))
}

//! What stands behind the question of a query.
ghost use Rattle.std.specs.Prelude.{◌≡◌, ◌+◌, ◌≤◌, length};
ghost use Rattle.client_queries.specs.Queries.{edns_at, with_opt, covers_no_type, signs, with_record, no_extras, extras_at, has_few_records, extras_behind};

use crate::places::{RecordPlace, number_at, record_place};
use crate::query::{ClientEdns, Extras};
use hickory_resolver_tries::head::Head;

fn edns_at(at: usize, octets: &[u8]) -> ClientEdns
    requires { at + 10 ≤ length octets.now }
    ensures { result ≡ edns_at at octets.now }
{
    ClientEdns {
        size: number_at(octets, at + 2),
        version: octets[at + 5],
        dnssec_ok: number_at(octets, at + 6) / 32768 % 2 == 1,
    }
}

fn with_opt(octets: &[u8], place: &RecordPlace, extras: Extras) -> Option<Extras>
    requires { place.now.fields + 10 ≤ length octets.now }
    ensures { result ≡ with_opt octets.now place.now extras }
{
    if extras.edns.is_some() || !place.of_root {
        return None;
    }
    Some(Extras {
        edns: Some(edns_at(place.fields, octets)),
        is_signed: false,
    })
}

fn covers_no_type(octets: &[u8], place: &RecordPlace) -> bool
    requires order { place.now.fields + 10 ≤ place.now.end }
    requires within { place.now.end ≤ length octets.now }
    ensures { result ≡ covers_no_type octets.now place.now }
{
    2 <= place.end - (place.fields + 10) && number_at(octets, place.fields + 10) == 0
}

// Whether it signs the message.
fn signs(octets: &[u8], place: &RecordPlace) -> bool
    requires order { place.now.fields + 10 ≤ place.now.end }
    requires within { place.now.end ≤ length octets.now }
    ensures { result ≡ signs octets.now place.now }
{
    match number_at(octets, place.fields) {
        250 => true,
        24 => covers_no_type(octets, place),
        _ => false,
    }
}

fn with_record(octets: &[u8], place: &RecordPlace, extras: Extras) -> Option<Extras>
    requires order { place.now.fields + 10 ≤ place.now.end }
    requires within { place.now.end ≤ length octets.now }
    ensures { result ≡ with_record octets.now place.now extras }
{
    if extras.is_signed {
        return None;
    }
    if number_at(octets, place.fields) == 41 {
        return with_opt(octets, place, extras);
    }
    Some(Extras {
        edns: extras.edns,
        is_signed: signs(octets, place),
    })
}

// So many records, which end the message.
#[tactic(auto, unfolding(crate::specs::Queries::extras_at))]
fn extras_at(count: u16, octets: &[u8], at: usize, extras: Extras) -> Option<Extras>
    ensures { result ≡ extras_at count octets.now at extras }
{
    if count == 0 {
        return if at == octets.len() {
            Some(extras)
        } else {
            None
        };
    }
    let place = record_place(octets, at)?;
    let more = with_record(octets, &place, extras)?;
    extras_at(count - 1, octets, place.end, more)
}

fn has_few_records(head: &Head) -> bool
    ensures { result ≡ has_few_records head.now }
{
    head.answers == 0 && head.authorities == 0 && head.additionals <= 2
}

// What stands behind the question, where it is no more than a query has, and can be read.
pub(crate) fn extras_behind(octets: &[u8], head: &Head, end: usize) -> Option<Extras>
    ensures { result ≡ extras_behind octets.now head.now end }
{
    if !has_few_records(head) {
        return None;
    }
    let none = Extras {
        edns: None,
        is_signed: false,
    };
    extras_at(head.additionals, octets, end, none)
}

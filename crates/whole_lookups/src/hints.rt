//! The addresses that HTTPS and SVCB records hint at (RFC 9460, sections 2.2 and 7.3).
ghost use Rattle.std.specs.Prelude.{◌≡◌, ◌&&◌, ◌+◌, ◌*◌, ◌≤◌, ◌<◌, false, length, take, drop, IfSome};
ghost use Rattle.std.specs.List.{list_all, list_any};
ghost use Rattle.std.specs.Option.{option_map};
ghost use Rattle.client_queries.specs.Places.{name_end};
ghost use Rattle.hickory_proto_core.specs.Records.{a_data, data_of};
ghost use Rattle.hickory_resolver_filters.specs.Networks.{is_in_some};
ghost use Rattle.hickory_resolver_tries.specs.Heads.{number_at};
ghost use Rattle.whole_lookups.specs.Denied.{is_kept_address};
ghost use Rattle.whole_lookups.specs.Hints.{addresses_at, addresses_in, hints, hints_at, hints_from, v6_data, value_end};

use hickory_proto_core::{IpNet, RData};
use hickory_resolver_filters::is_in;
use std::net::{Ipv4Addr, Ipv6Addr};

// No name has more than 127 labels, and a root.
const MOST_STEPS: u8 = 128;

const IPV4HINT: u16 = 4;

const IPV6HINT: u16 = 6;

fn is_in_some(nets: &[IpNet], rdata: &RData) -> bool
    ensures { result ≡ is_in_some nets.now (data_of rdata.now) }
{
    nets.iter().any(|net| is_in(net, rdata))
}

// Whether an address stays.
pub(crate) fn is_kept_address(allow: &[IpNet], deny: &[IpNet], rdata: &RData) -> bool
    ensures { result ≡ is_kept_address allow.now deny.now (data_of rdata.now) }
{
    is_in_some(allow, rdata) || !is_in_some(deny, rdata)
}

// The number at a position, the high octet first.
fn number_at(octets: &[u8], at: usize) -> u16
    requires { at + 1 < length octets.now }
    ensures { result ≡ number_at octets.now at }
{
    u16::from(octets[at]) * 256 + u16::from(octets[at + 1])
}

// The position behind a name that is written out, in so many steps.
#[tactic(auto, unfolding(client_queries::specs::Places::name_end))]
fn name_end(steps: u8, octets: &[u8], at: usize) -> Option<usize>
    ensures { result ≡ name_end false steps octets.now at }
{
    if steps == 0 {
        return None;
    }
    if octets.len() <= at {
        return None;
    }
    let first = octets[at];
    if first == 0 {
        return Some(at + 1);
    }
    if first < 64 {
        return name_end(steps - 1, octets, at + 1 + usize::from(first));
    }
    None
}

fn v4_at(octets: &[u8], at: usize) -> RData
    requires { at + 4 ≤ length octets.now }
    ensures { data_of result ≡ a_data (take 4 (drop at octets.now)) }
{
    let mut address = [0; 4];
    address.copy_from_slice(&octets[at..at + 4]);
    RData::A(Ipv4Addr::from_octets(address))
}

fn v6_at(octets: &[u8], at: usize) -> RData
    requires { at + 16 ≤ length octets.now }
    ensures { data_of result ≡ v6_data (take 16 (drop at octets.now)) }
{
    let mut address = [0; 16];
    address.copy_from_slice(&octets[at..at + 16]);
    RData::AAAA(Ipv6Addr::from_octets(address))
}

fn is_v4_kept(allow: &[IpNet], deny: &[IpNet], octets: &[u8], at: usize) -> bool
    requires { at + 4 ≤ length octets.now }
    ensures { result ≡ is_kept_address allow.now deny.now (a_data (take 4 (drop at octets.now))) }
{
    is_kept_address(allow, deny, &v4_at(octets, at))
}

fn is_v6_kept(allow: &[IpNet], deny: &[IpNet], octets: &[u8], at: usize) -> bool
    requires { at + 16 ≤ length octets.now }
    ensures { result ≡ is_kept_address allow.now deny.now (v6_data (take 16 (drop at octets.now))) }
{
    is_kept_address(allow, deny, &v6_at(octets, at))
}

// In one place, so that a loop has no branches to join.
fn both(one: bool, other: bool) -> bool
    ensures { result ≡ (one && other) }
{
    one && other
}

// Whether so many IPv4 addresses, one behind the other, stay.
fn v4_stay(allow: &[IpNet], deny: &[IpNet], octets: &[u8], at: usize, count: usize) -> bool
    requires { at + 4 * count ≤ length octets.now }
    ensures { result
        ≡ list_all (is_kept_address allow.now deny.now) (addresses_at a_data 4 count octets.now at) }
{
    let mut at = at;
    let mut stay = true;
    for _ in 0..count {
        let kept = is_v4_kept(allow, deny, octets, at);
        stay = both(kept, stay);
        at += 4;
    }
    stay
}

// The same of IPv6 addresses.
fn v6_stay(allow: &[IpNet], deny: &[IpNet], octets: &[u8], at: usize, count: usize) -> bool
    requires { at + 16 * count ≤ length octets.now }
    ensures { result
        ≡ list_all (is_kept_address allow.now deny.now) (addresses_at v6_data 16 count octets.now at) }
{
    let mut at = at;
    let mut stay = true;
    for _ in 0..count {
        let kept = is_v6_kept(allow, deny, octets, at);
        stay = both(kept, stay);
        at += 16;
    }
    stay
}

// The same of those in so many octets, where each is whole.
fn v4_in(allow: &[IpNet], deny: &[IpNet], octets: &[u8], at: usize, count: usize) -> Option<bool>
    requires { at + count ≤ length octets.now }
    ensures { result
        ≡ option_map (list_all (is_kept_address allow.now deny.now)) (addresses_in a_data 4 octets.now at count) }
{
    if 0 < count && count % 4 == 0 {
        Some(v4_stay(allow, deny, octets, at, count / 4))
    } else {
        None
    }
}

fn v6_in(allow: &[IpNet], deny: &[IpNet], octets: &[u8], at: usize, count: usize) -> Option<bool>
    requires { at + count ≤ length octets.now }
    ensures { result
        ≡ option_map (list_all (is_kept_address allow.now deny.now)) (addresses_in v6_data 16 octets.now at count) }
{
    if 0 < count && count % 16 == 0 {
        Some(v6_stay(allow, deny, octets, at, count / 16))
    } else {
        None
    }
}

// The position behind a parameter.
fn value_end(octets: &[u8], at: usize) -> Option<usize>
    ensures end { result ≡ value_end octets.now at }
    ensures within { IfSome result (λ end. (at + 4 ≤ end) × (end ≤ length octets.now)) }
{
    if octets.len() < 4 || octets.len() - 4 < at {
        return None;
    }
    let end = at + 4 + usize::from(number_at(octets, at + 2));
    if octets.len() < end {
        return None;
    }
    Some(end)
}

// Whether the addresses of a parameter stay.
fn parameter_stays(
    allow: &[IpNet],
    deny: &[IpNet],
    octets: &[u8],
    at: usize,
    end: usize,
) -> Option<bool>
    requires from { at + 4 ≤ end }
    requires within { end ≤ length octets.now }
    ensures { result
        ≡ option_map (list_all (is_kept_address allow.now deny.now)) (hints_at octets.now at end) }
{
    match number_at(octets, at) {
        IPV4HINT => v4_in(allow, deny, octets, at + 4, end - (at + 4)),
        IPV6HINT => v6_in(allow, deny, octets, at + 4, end - (at + 4)),
        _ => Some(true),
    }
}

// Whether those of all parameters from there on do.
fn parameters_stay(allow: &[IpNet], deny: &[IpNet], octets: &[u8], at: usize) -> Option<bool>
    ensures { result
        ≡ option_map (list_all (is_kept_address allow.now deny.now)) (hints_from (length octets.now) octets.now at) }
{
    let mut at = at;
    let mut stay = true;
    for _ in 0..octets.len() {
        if at == octets.len() {
            return Some(stay);
        }
        let end = value_end(octets, at)?;
        let these = parameter_stays(allow, deny, octets, at, end)?;
        stay = both(stay, these);
        at = end;
    }
    None
}

// Whether each address that data hint at stays, where they can be read.
pub(crate) fn hints_stay(allow: &[IpNet], deny: &[IpNet], octets: &[u8]) -> Option<bool>
    ensures { result ≡ option_map (list_all (is_kept_address allow.now deny.now)) (hints octets.now) }
{
    let at = name_end(MOST_STEPS, octets, 2)?;
    parameters_stay(allow, deny, octets, at)
}

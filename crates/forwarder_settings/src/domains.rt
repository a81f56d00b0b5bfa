//! Domains, and what lines say of them.
ghost use Rattle.std.specs.Prelude.{◌≡◌, ◌<◌, ◌+◌, ◌++◌, ◌∷◌, [], IfOk, None, OnOk, length, position};
ghost use Rattle.std.specs.Str.{bytes_eq};
ghost use Rattle.hickory_proto_core.specs.Name.{canonical_form, label_bytes, label_fault, lower_label};
ghost use Rattle.forwarder_settings.specs.Reading.{domain_of, first_group, forwarded, forwarded_at, group_number, grown_at, one_more, place_of};

use hickory_proto_core::Name;
use hickory_resolver_pool::PoolServer;
use local_answers::DomainRule;
use std::alloc::{AllocError, Global};
use std::marker::Model;

/// A domain and the servers that it and all names below it are asked of.
#[derive(Drop)]
pub struct DomainGroup {
    /// The domain: the octets of its name (RFC 1035, section 3.1), in lower case.
    pub domain: Vec<u8>,
    /// Its servers, in the order of their lines.
    pub servers: Vec<PoolServer>,
}

impl Model for DomainGroup {
    ghost use Rattle.forwarder_settings.specs.Reading.{DomainGroupValue};

    ghost Value = { DomainGroupValue };

    ghost view = { λ g. record { domain = g.domain.items; servers = g.servers.items } };
}

/// What a line says is done with a domain and all names below it.
#[derive(Drop)]
pub struct RuleLine {
    /// The domain: the octets of its name (RFC 1035, section 3.1), in lower case.
    pub domain: Vec<u8>,
    /// What is done.
    pub rule: DomainRule,
}

impl Model for RuleLine {
    ghost use Rattle.std.specs.Prelude.{ℕ, List};
    ghost use Rattle.local_answers.specs.declared.rules.DomainRule.{DomainRule};

    ghost Value = { List ℕ × DomainRule };

    ghost view = { λ l. (l.domain.items, l.rule) };
}

/// The octets of a name in lower case.
pub(crate) fn domain_of(alloc: Global, name: &Name) -> Result<Vec<u8>, AllocError>
    ensures { IfOk result (λ octets. octets.items ≡ domain_of name.now) }
{
    canonical(alloc, name.labels())
}

fn canonical(alloc: Global, labels: &[Vec<u8>]) -> Result<Vec<u8>, AllocError>
    requires { label_fault (label_bytes labels.now) ≡ None }
    ensures { IfOk result (λ octets. octets.items ≡ canonical_form (label_bytes labels.now)) }
{
    let mut octets = Vec::new(alloc);
    for label in labels {
        push_label(&mut octets, label)?;
    }
    octets.push(0)?;
    Ok(octets)
}

// Puts a label behind the others: its length, and then its octets in lower case.
fn push_label(octets: &mut Vec<u8>, label: &[u8]) -> Result<(), AllocError>
    requires { length label.now < 256 }
    ensures { OnOk result (octets.new.items ≡ octets.old.items ++ length label.now ∷ lower_label label.now) }
{
    octets.push(label.len() as u8)?;
    for octet in label {
        octets.push(octet.to_ascii_lowercase())?;
    }
    Ok(())
}

/// The number that the group of a domain has, or gets: groups are counted from 1.
pub(crate) fn group_number(groups: &[DomainGroup], domain: &[u8]) -> u64
    ensures { result ≡ group_number domain.now groups.now }
{
    let count = groups.len();
    match place_of(groups, domain) {
        Some(place) => place as u64 + 1,
        None => count as u64 + 1,
    }
}

// The place of a domain's group.
fn place_of(groups: &[DomainGroup], domain: &[u8]) -> Option<usize>
    ensures { result ≡ place_of domain.now groups.now }
{
    groups.iter().position(|group| *domain == *group.domain)
}

/// One more server of a domain.
pub(crate) fn add_server(
    alloc: Global,
    groups: &mut Vec<DomainGroup>,
    domain: &[u8],
    server: PoolServer,
) -> Result<(), AllocError>
    ensures { OnOk result (groups.new.items ≡ forwarded domain.now server groups.old.items) }
{
    match place_of(groups, domain) {
        Some(place) => grow_at(groups, place, server),
        None => push_group(alloc, groups, domain, server),
    }
}

// One more server of the group at a place.
fn grow_at(
    groups: &mut Vec<DomainGroup>,
    place: usize,
    server: PoolServer,
) -> Result<(), AllocError>
    ensures { OnOk result (groups.new.items ≡ grown_at place server groups.old.items) }
{
    match groups.get_mut(place) {
        Some(group) => push_server(group, server),
        None => Ok(()),
    }
}

fn push_server(group: &mut DomainGroup, server: PoolServer) -> Result<(), AllocError>
    ensures { OnOk result (group.new ≡ one_more server group.old) }
{
    match group.servers.push(server) {
        Ok(()) => Ok(()),
        Err(_) => Err(AllocError),
    }
}

// The group of a domain that has none yet.
fn push_group(
    alloc: Global,
    groups: &mut Vec<DomainGroup>,
    domain: &[u8],
    server: PoolServer,
) -> Result<(), AllocError>
    ensures { OnOk result (groups.new.items ≡ groups.old.items ++ first_group domain.now server ∷ []) }
{
    match groups.push(first_group(alloc, domain, server)?) {
        Ok(()) => Ok(()),
        Err(_) => Err(AllocError),
    }
}

fn first_group(alloc: Global, domain: &[u8], server: PoolServer) -> Result<DomainGroup, AllocError>
    ensures { IfOk result (λ group. group ≡ first_group domain.now server) }
{
    let domain = Vec::from_slice(alloc, domain)?;
    match vec![in alloc; server] {
        Ok(servers) => Ok(DomainGroup { domain, servers }),
        Err(_) => Err(AllocError),
    }
}

//! The names of an address.
ghost use Rattle.std.specs.Prelude.{◌≡◌, filter, length, IfOk, IsOkUnless};
ghost use Rattle.std.specs.BTreeSet.{IsOrdered};
ghost use Rattle.std.specs.List.{filter_map};
ghost use Rattle.hickory_proto_core.specs.Records.{data_of_address};
ghost use Rattle.hickory_resolver_model.specs.Hosts.{has_address, pointers};
ghost use Rattle.hickory_resolver_hosts.specs.Index.{owner_cmp, owners_below};
ghost use Rattle.hickory_resolver_hosts.specs.HostsTable.{hosts_of, no_lookups, pointer_at, pointer_to, IsIndexed};

use crate::host::HostLookups;
use crate::owners::{Owners, bits_v4, bits_v6};
use hickory_proto_core::{Name, NetError, RData, Record};
use hickory_resolver_lookup::MAX_TTL;
use indexmap::IndexMap;
use std::collections::BTreeSet;
use std::hash::BuildHasher;
use std::net::IpAddr;

/// The names of an address, in the order of the table, as PTR records of an owner for a day.
pub fn pointer_records<S: BuildHasher>(
    names: &IndexMap<Name, HostLookups, S>,
    owners: &Owners,
    owner: &Name,
    address: IpAddr,
) -> Result<Vec<Record>, NetError>
    requires { IsIndexed (hosts_of names.now.entries) owners.now }
    ensures ok { IfOk result (λ records.
        records.items ≡ pointers owner.now
        (filter (has_address (data_of_address address)) (hosts_of names.now.entries))) }
    ensures err { IsOkUnless result NetError.OutOfMemory }
{
    match address {
        IpAddr::V4(address) => pointers_of(names, &owners.v4, owner, bits_v4(address)),
        IpAddr::V6(address) => pointers_of(names, &owners.v6, owner, bits_v6(address)),
    }
}

// The names of an address, given by its bits, at the places that the index has for it.
fn pointers_of<B: Ord + Copy, S: BuildHasher>(
    names: &IndexMap<Name, HostLookups, S>,
    owners: &BTreeSet<(B, usize)>,
    owner: &Name,
    bits: B,
) -> Result<Vec<Record>, NetError>
    ensures ok { IfOk result (λ records. records.items
        ≡ filter_map (λ q. pointer_at owner.now (hosts_of names.now.entries) q.1)
        (owners_below B.cmp owners.now bits (length names.now.entries))) }
    ensures ordered { IsOrdered (owner_cmp B.cmp) owners.now }
    ensures err { IsOkUnless result NetError.OutOfMemory }
{
    let mut records = Vec::new(*names.allocator());
    for pair in owners.range((bits, 0)..(bits, names.len())) {
        if let Some((name, _)) = names.get_index(pair.1) {
            records.push(pointer_record(owner, name)?)?;
        }
    }
    Ok(records)
}

// The PTR record of an owner for a day that gives this name.
fn pointer_record(owner: &Name, name: &Name) -> Result<Record, NetError>
    ensures ok { IfOk result (λ r. r ≡ pointer_to owner.now (no_lookups name.now)) }
    ensures err { IsOkUnless result NetError.OutOfMemory }
{
    let owner = owner.clone()?;
    Ok(Record::from_rdata(owner, MAX_TTL, RData::PTR(name.clone()?)))
}

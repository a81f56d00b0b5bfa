//! The table of names, and the index that goes with it.
ghost use Rattle.std.specs.Prelude.{◌≡◌, ◌<◌, ◌==◌, ◌||◌, ◌&&◌, ℕ, true, false, length, IfOk, OnOk, OnErr, IsOkUnless};
ghost use Rattle.hickory_proto_core.specs.Name.{NameValue};
ghost use Rattle.hickory_resolver_model.specs.Hosts.{insert_host, with_lookup};
ghost use Rattle.hickory_resolver_hosts.specs.Index.{is_owner, EachAddress};
ghost use Rattle.hickory_resolver_hosts.specs.HostsTable.{host_at, hosts_of, is_given, no_lookups, place_in, put_host, IsIndexed};

use crate::host::{HostLookups, first_lookup};
use crate::hosts_error::HostsError;
use crate::owners::{Owners, add_first_owners, add_owners, remove_owners};
use hickory_proto_core::{Name, RecordType};
use hickory_resolver_lookup::Lookup;
use indexmap::IndexMap;
use indexmap::map::Entry;
use std::alloc::{AllocError, Global};
use std::hash::BuildHasher;

/// Puts in one more look-up for a fully qualified name, and its addresses into the index by address. A refused
/// call changes nothing.
pub fn insert_indexed<S: BuildHasher>(
    names: &mut IndexMap<Name, HostLookups, S>,
    owners: &mut Owners,
    name: Name,
    record_type: RecordType,
    lookup: Lookup,
    now: u64,
) -> Result<(), HostsError>
    requires as_fqdn { name.fqdn ≡ true }
    requires indexed { IsIndexed (hosts_of names.old.entries) owners.old }
    ensures ok { OnOk result
        (hosts_of names.new.entries ≡ insert_host name record_type lookup now (hosts_of names.old.entries)) }
    ensures unchanged { OnErr result (hosts_of names.new.entries ≡ hosts_of names.old.entries) }
    ensures err { IsOkUnless result HostsError.OutOfMemory }
    ensures indexed { IsIndexed (hosts_of names.new.entries) owners.new }
{
    let alloc = *names.allocator();
    let place = match names.entry(Clone::clone(&name)?)? {
        Entry::Occupied(entry) => entry.index(),
        Entry::Vacant(entry) => {
            let place = entry.index();
            let Ok(first) = first(alloc, owners, place, name, record_type, lookup, now) else {
                // Gives the map back, unchanged.
                drop(entry.into_key());
                return Err(HostsError::OutOfMemory);
            };
            // There is room, so this cannot fail.
            let _entry = entry.insert_entry(first);
            return Ok(());
        }
    };
    join(names, owners, place, name, record_type, lookup, now)
}

// What a new name, which comes to this place, has after its first look-up. The index is told of its addresses. A
// refused call changes nothing.
fn first(
    alloc: Global,
    owners: &mut Owners,
    place: usize,
    name: Name,
    record_type: RecordType,
    lookup: Lookup,
    now: u64,
) -> Result<HostLookups, AllocError>
    requires { EachAddress (λ a. is_owner owners.old a place ≡ false) }
    ensures ok { IfOk result (λ first. (n : NameValue) →
        host_at n first ≡ with_lookup name record_type lookup now (no_lookups n)) }
    ensures told { OnOk result (EachAddress (λ a. (i : ℕ) →
        is_owner owners.new a i
        ≡ is_owner owners.old a i || (is_given record_type lookup.message.answers a && (place == i)))) }
    ensures err { OnErr result (EachAddress (λ a. (i : ℕ) → is_owner owners.new a i ≡ is_owner owners.old a i)) }
{
    let known = first_lookup(alloc, name, record_type, lookup, now)?;
    add_first_owners(owners, place, record_type, known.answers())?;
    Ok(HostLookups::only(record_type, known))
}

// Joins one more look-up to those of the name, which stands at this place, and tells the index. A refused call
// changes nothing.
fn join<S: BuildHasher>(
    names: &mut IndexMap<Name, HostLookups, S>,
    owners: &mut Owners,
    place: usize,
    name: Name,
    record_type: RecordType,
    lookup: Lookup,
    now: u64,
) -> Result<(), HostsError>
    requires place { place ≡ place_in name (hosts_of names.old.entries) }
    requires there { place < length names.old.entries }
    requires indexed { IsIndexed (hosts_of names.old.entries) owners.old }
    ensures ok { OnOk result
        (hosts_of names.new.entries
        ≡ put_host (with_lookup name record_type lookup now) name (hosts_of names.old.entries)) }
    ensures unchanged { OnErr result (hosts_of names.new.entries ≡ hosts_of names.old.entries) }
    ensures err { IsOkUnless result HostsError.OutOfMemory }
    ensures indexed { IsIndexed (hosts_of names.new.entries) owners.new }
{
    let alloc = *names.allocator();
    let added = add_owners(alloc, owners, place, record_type, lookup.answers())?;
    let joined = add(names, place, name, record_type, lookup, now);
    if joined.is_err() {
        remove_owners(owners, &added, place);
    }
    joined
}

// As `join`, without the index.
fn add<S: BuildHasher>(
    names: &mut IndexMap<Name, HostLookups, S>,
    place: usize,
    name: Name,
    record_type: RecordType,
    lookup: Lookup,
    now: u64,
) -> Result<(), HostsError>
    requires place { place ≡ place_in name (hosts_of names.old.entries) }
    requires there { place < length names.old.entries }
    ensures ok { OnOk result
        (hosts_of names.new.entries
        ≡ put_host (with_lookup name record_type lookup now) name (hosts_of names.old.entries)) }
    ensures unchanged { OnErr result (hosts_of names.new.entries ≡ hosts_of names.old.entries) }
    ensures err { IsOkUnless result HostsError.OutOfMemory }
{
    let alloc = *names.allocator();
    match names.get_index_mut(place) {
        Some(host) => {
            host.add(alloc, name, record_type, lookup, now)?;
            Ok(())
        }
        None => unreachable!(),
    }
}

//! The index from an address to the places of the names that have it.
ghost use Rattle.std.specs.Prelude.{◌≡◌, ℕ, false, not, ◌||◌, ◌&&◌, ◌==◌, IfOk, OnOk, OnErr};
ghost use Rattle.std.specs.declared.net.IpAddr.{IpAddr as Address};
ghost use Rattle.std.specs.Net.Addr.{ipv4_bits, ipv4_octets, ipv6_bits, ipv6_octets};
ghost use Rattle.std.specs.Option.{option_map_or};
ghost use Rattle.hickory_proto_core.specs.Codes.{type_code};
ghost use Rattle.hickory_proto_core.specs.Records.{data_eq, data_of_address};
ghost use Rattle.hickory_resolver_model.specs.Hosts.{address_type};
ghost use Rattle.hickory_resolver_hosts.specs.Index.{is_among, is_owner, same_address};
ghost use Rattle.hickory_resolver_hosts.specs.Index.{AreOctets, EachAddress, HasOctets};
ghost use Rattle.hickory_resolver_hosts.specs.HostsTable.{gives, is_given, is_of_family};

use hickory_proto_core::{Record, RecordType};
use std::alloc::{AllocError, Global};
use std::collections::BTreeSet;
use std::net::{IpAddr, Ipv4Addr, Ipv6Addr};

/// The places of the names that have each address, in ascending order.
#[derive(Drop)]
pub struct Owners {
    /// Those of IPv4 addresses, each behind the bits of its address.
    pub v4: BTreeSet<(u32, usize)>,
    /// Those of IPv6 addresses, in the same way.
    pub v6: BTreeSet<(u128, usize)>,
}

impl Owners {
    /// No place has any address. Takes no memory.
    pub fn new(alloc: Global) -> Owners
        ensures { (a : Address) (i : ℕ) → is_owner result a i ≡ false }
    {
        Owners {
            v4: BTreeSet::new(alloc),
            v6: BTreeSet::new(alloc),
        }
    }

    /// From now on the name at this place has the address, of four octets or sixteen. Says whether it did not
    /// have it before. A refused call changes nothing.
    pub fn add(&mut self, address: IpAddr, place: usize) -> Result<bool, AllocError>
        ensures address { HasOctets address }
        ensures added { IfOk result (λ added. added ≡ not (is_owner self.old address place)) }
        ensures ok { OnOk result ((a : Address) (i : ℕ) →
            is_owner self.new a i ≡ is_owner self.old a i || (same_address address a && (place == i))) }
        ensures err { OnErr result ((a : Address) (i : ℕ) → is_owner self.new a i ≡ is_owner self.old a i) }
    {
        match address {
            IpAddr::V4(address) => Ok(self.v4.insert((bits_v4(address), place))?),
            IpAddr::V6(address) => Ok(self.v6.insert((bits_v6(address), place))?),
        }
    }

    /// From now on the name at this place does not have the address, which has four octets or sixteen.
    pub fn remove(&mut self, address: IpAddr, place: usize)
        ensures address { HasOctets address }
        ensures removed { (a : Address) (i : ℕ) →
            is_owner self.new a i ≡ is_owner self.old a i && not (same_address address a && (place == i)) }
    {
        match address {
            IpAddr::V4(address) => self.v4.remove(&(bits_v4(address), place)),
            IpAddr::V6(address) => self.v6.remove(&(bits_v6(address), place)),
        };
    }
}

/// The bits of an IPv4 address, which has four octets.
pub fn bits_v4(address: Ipv4Addr) -> u32
    ensures bits { result ≡ ipv4_bits address }
    ensures octets { AreOctets 4 (ipv4_octets address) }
{
    u32::from_be_bytes(address.octets())
}

/// The bits of an IPv6 address, which has sixteen octets.
pub fn bits_v6(address: Ipv6Addr) -> u128
    ensures bits { result ≡ ipv6_bits address }
    ensures octets { AreOctets 16 (ipv6_octets address) }
{
    u128::from_be_bytes(address.octets())
}

/// From now on the name at this place, which has no address yet, has those that records of a type give. A
/// refused call changes nothing: it takes out all that the records give, and so needs no list of those that are
/// new, as `add_owners` does.
pub fn add_first_owners(
    owners: &mut Owners,
    place: usize,
    record_type: RecordType,
    records: &[Record],
) -> Result<(), AllocError>
    requires { EachAddress (λ a. is_owner owners.old a place ≡ false) }
    ensures ok { OnOk result (EachAddress (λ a. (i : ℕ) →
        is_owner owners.new a i ≡ is_owner owners.old a i || (is_given record_type records.now a && (place == i)))) }
    ensures err { OnErr result (EachAddress (λ a. (i : ℕ) →
        is_owner owners.new a i ≡ is_owner owners.old a i)) }
{
    for entry in records {
        if add_given(owners, place, record_type, entry).is_err() {
            remove_given(owners, place, record_type, records);
            return Err(AllocError);
        }
    }
    Ok(())
}

// From now on the name at this place has the address that a record of a type gives, if it gives one. A refused
// call changes nothing.
fn add_given(
    owners: &mut Owners,
    place: usize,
    record_type: RecordType,
    entry: &Record,
) -> Result<(), AllocError>
    ensures ok { OnOk result (EachAddress (λ a. (i : ℕ) →
        is_owner owners.new a i ≡ is_owner owners.old a i
        || (gives record_type a entry.now && (place == i)))) }
    ensures err { OnErr result (EachAddress (λ a. (i : ℕ) →
        is_owner owners.new a i ≡ is_owner owners.old a i)) }
{
    if let Some(address) = given_address(record_type, entry) {
        owners.add(address, place)?;
    }
    Ok(())
}

// From now on the name at this place has none of the addresses that records of a type give.
fn remove_given(owners: &mut Owners, place: usize, record_type: RecordType, records: &[Record])
    ensures { EachAddress (λ a. (i : ℕ) →
        is_owner owners.new a i
        ≡ is_owner owners.old a i && not (is_given record_type records.now a && (place == i))) }
{
    for entry in records {
        remove_record(owners, place, record_type, entry);
    }
}

// From now on the name at this place does not have the address that a record of a type gives, if it gives one.
fn remove_record(owners: &mut Owners, place: usize, record_type: RecordType, entry: &Record)
    ensures { EachAddress (λ a. (i : ℕ) →
        is_owner owners.new a i
        ≡ is_owner owners.old a i && not (gives record_type a entry.now && (place == i))) }
{
    if let Some(address) = given_address(record_type, entry) {
        owners.remove(address, place);
    }
}

/// From now on the name at this place has the addresses that records of a type give. Gives those that it did
/// not have before. A refused call changes nothing.
pub fn add_owners(
    alloc: Global,
    owners: &mut Owners,
    place: usize,
    record_type: RecordType,
    records: &[Record],
) -> Result<Vec<IpAddr>, AllocError>
    ensures added { IfOk result (λ added. EachAddress (λ a.
        is_among a added.items ≡ is_given record_type records.now a && not (is_owner owners.old a place))) }
    ensures ok { IfOk result (λ added. EachAddress (λ a. (i : ℕ) →
        is_owner owners.new a i ≡ is_owner owners.old a i || (is_among a added.items && (place == i)))) }
    ensures err { OnErr result (EachAddress (λ a. (i : ℕ) →
        is_owner owners.new a i ≡ is_owner owners.old a i)) }
{
    let mut added = Vec::new(alloc);
    for entry in records {
        if add_record(owners, &mut added, place, record_type, entry).is_err() {
            remove_owners(owners, &added, place);
            return Err(AllocError);
        }
    }
    Ok(added)
}

// From now on the name at this place has the address that a record of a type gives, if it gives one. It is put
// behind `added` where it is new. A refused call changes nothing.
fn add_record(
    owners: &mut Owners,
    added: &mut Vec<IpAddr>,
    place: usize,
    record_type: RecordType,
    entry: &Record,
) -> Result<(), AllocError>
    ensures added { OnOk result (EachAddress (λ a.
        is_among a added.new.items ≡ is_among a added.old.items
        || (gives record_type a entry.now && not (is_owner owners.old a place)))) }
    ensures ok { OnOk result (EachAddress (λ a. (i : ℕ) →
        is_owner owners.new a i ≡ is_owner owners.old a i
        || (gives record_type a entry.now && (place == i)))) }
    ensures err { OnErr result (EachAddress (λ a. (i : ℕ) →
        is_owner owners.new a i ≡ is_owner owners.old a i)) }
    ensures unchanged { OnErr result (added.new.items ≡ added.old.items) }
{
    let Some(address) = given_address(record_type, entry) else {
        return Ok(());
    };
    if owners.add(address, place)? && added.push(address).is_err() {
        owners.remove(address, place);
        return Err(AllocError);
    }
    Ok(())
}

// The address that a record of a type gives.
fn given_address(record_type: RecordType, entry: &Record) -> Option<IpAddr>
    ensures { (a : Address) →
        option_map_or (λ k. data_eq (data_of_address a) (data_of_address k)) result false
        ≡ gives record_type a entry.now }
{
    let address = entry.rdata.ip_addr()?;
    is_of_family(record_type, address).then_some(address)
}

// Whether the address is of the family of a type: IPv4 for A, IPv6 for every other type.
fn is_of_family(record_type: RecordType, address: IpAddr) -> bool
    ensures { result ≡ is_of_family record_type address }
{
    address.is_ipv4() == (record_type.code() == 1)
}

/// The name at this place does not have these addresses any more.
pub fn remove_owners(owners: &mut Owners, addresses: &[IpAddr], place: usize)
    ensures { (a : Address) (i : ℕ) →
        is_owner owners.new a i ≡ is_owner owners.old a i && not (is_among a addresses.now && (place == i)) }
{
    for address in addresses {
        owners.remove(*address, place);
    }
}

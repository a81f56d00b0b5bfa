//! The table of hosts.
ghost use Rattle.std.specs.Prelude.{◌≡◌, ◌≢◌, ◌⊎◌, ◌==◌, [], find, length, option_and_then, None, Ok, IfOk, OnOk, OnErr, IsOkUnless};
ghost use Rattle.hickory_proto_core.specs.Codes.{type_code};
ghost use Rattle.hickory_proto_core.specs.codes.record_type.RecordType.TheVariants as type;
ghost use Rattle.hickory_resolver_model.specs.Hosts.{family, insert_host, is_host, as_fqdn, pointer_lookup, HostsHave};
ghost use Rattle.hickory_resolver_hosts.specs.HostsTable.{HasPointers};

use crate::host::HostLookups;
use crate::hosts_error::HostsError;
use crate::owners::Owners;
use crate::pointers::pointer_records;
use crate::table::insert_indexed;
use hickory_proto_core::{Name, NetError, Query, Record, RecordType};
use hickory_resolver_lookup::Lookup;
use indexmap::IndexMap;
use std::alloc::Global;
use std::hash::{BuildHasher, BuildHasherDefault, FoldHasher};
use std::marker::Model;

/// Names with their addresses, in the order in which they were first seen (RFC 952; RFC 1123, section
/// 6.1.3.8). A name finds its addresses, and an address its names, without a walk over the table.
#[derive(Drop)]
pub struct Hosts<S: BuildHasher = BuildHasherDefault<FoldHasher>> {
    names: IndexMap<Name, HostLookups, S>,
    owners: Owners,
}

impl<S: BuildHasher> Model for Hosts<S> {
    ghost use Rattle.std.specs.Prelude.{List};
    ghost use Rattle.hickory_resolver_model.specs.Hosts.{Host};
    ghost use Rattle.hickory_resolver_hosts.specs.HostsTable.{hosts_of, IsIndexed};

    ghost Value = { List Host };

    ghost view = { λ h. hosts_of h.names.entries };

    ghost invariant = { λ h. IsIndexed (hosts_of h.names.entries) h.owners };
}

impl Hosts<BuildHasherDefault<FoldHasher>> {
    /// An empty table. Takes no memory.
    pub fn default(alloc: Global) -> Self
        ensures { result ≡ [] }
    {
        Hosts::with_hasher(alloc, BuildHasherDefault::new())
    }
}

impl<S: BuildHasher> Hosts<S> {
    /// An empty table whose names are hashed by this. Takes no memory.
    pub fn with_hasher(alloc: Global, hasher: S) -> Self
        ensures { result ≡ [] }
    {
        Hosts {
            names: IndexMap::with_hasher(alloc, hasher),
            owners: Owners::new(alloc),
        }
    }

    /// Joins a look-up of A or AAAA records to what the name, made fully qualified, has of that type, at this
    /// moment (seconds). That the type is one of these two is up to the caller. A new name comes last. A refused call
    /// is out of memory, and changes nothing.
    pub fn insert(
        &mut self,
        name: Name,
        record_type: RecordType,
        lookup: Lookup,
        now: u64,
    ) -> Result<(), HostsError>
        requires { (type_code record_type ≡ 1) ⊎ (type_code record_type ≡ 28) }
        ensures ok { OnOk result (self.new ≡ insert_host name record_type lookup now self.old) }
        ensures unchanged { OnErr result (self.new ≡ self.old) }
        ensures err { IsOkUnless result HostsError.OutOfMemory }
    {
        let mut name = name;
        name.set_fqdn(true);
        insert_indexed(
            &mut self.names,
            &mut self.owners,
            name,
            record_type,
            lookup,
            now,
        )
    }

    /// What the table has for a question at this moment (seconds), if it has something: the addresses of the
    /// name for A and AAAA, and for PTR the names of the address that the asked name stands for, in the order
    /// in which they were first seen, for a day. The class is not looked at. For other types it has nothing, and takes
    /// no memory to say so.
    pub fn lookup_static_host(&self, query: &Query, now: u64) -> Result<Option<Lookup>, NetError>
        ensures ok { IfOk result (HostsHave query.now now self.now) }
        ensures other { type_code query.now.query_type ≢ type_code type.A
            → type_code query.now.query_type ≢ type_code type.AAAA
            → type_code query.now.query_type ≢ type_code type.PTR → result ≡ Ok None }
        ensures err { IsOkUnless result NetError.OutOfMemory }
    {
        match query.query_type.code() {
            1 | 28 => self.addresses(query),
            12 => self.pointers(query, now),
            _ => Ok(None),
        }
    }

    /// Whether the table has no names.
    pub fn is_empty(&self) -> bool
        ensures { result ≡ (length self.now == 0) }
    {
        self.names.is_empty()
    }

    pub(crate) fn alloc(&self) -> Global {
        *self.names.allocator()
    }

    fn addresses(&self, query: &Query) -> Result<Option<Lookup>, NetError>
        ensures ok { IfOk result (λ found.
            found ≡ option_and_then (family query.now.query_type)
            (find (is_host (as_fqdn query.now.name)) self.now)) }
        ensures err { IsOkUnless result NetError.OutOfMemory }
    {
        if self.names.is_empty() {
            return Ok(None);
        }
        let name = as_fqdn(&query.name)?;
        let Some(host) = self.names.get(&name) else {
            return Ok(None);
        };
        match host.family(query.query_type) {
            Some(found) => Ok(Some(found.clone()?)),
            None => Ok(None),
        }
    }

    fn pointers(&self, query: &Query, now: u64) -> Result<Option<Lookup>, NetError>
        ensures ok { IfOk result (HasPointers query.now now self.now) }
        ensures err { IsOkUnless result NetError.OutOfMemory }
    {
        let owner = as_fqdn(&query.name)?;
        let Ok(net) = owner.parse_arpa_name() else {
            return Ok(None);
        };
        let records = pointer_records(&self.names, &self.owners, &owner, net.addr())?;
        pointer_lookup(query, records, now)
    }
}

// The look-up of a question, given the records that answer it, where there are some.
fn pointer_lookup(query: &Query, records: Vec<Record>, now: u64) -> Result<Option<Lookup>, NetError>
    ensures ok { IfOk result (λ found. found ≡ pointer_lookup query.now records.items now) }
    ensures err { IsOkUnless result NetError.OutOfMemory }
{
    if records.is_empty() {
        return Ok(None);
    }
    Ok(Some(Lookup::new_with_max_ttl(query.clone()?, records, now)?))
}

// The name, fully qualified.
fn as_fqdn(name: &Name) -> Result<Name, NetError>
    ensures ok { IfOk result (λ n. n ≡ as_fqdn name.now) }
    ensures err { IsOkUnless result NetError.OutOfMemory }
{
    let mut name = name.clone()?;
    name.set_fqdn(true);
    Ok(name)
}

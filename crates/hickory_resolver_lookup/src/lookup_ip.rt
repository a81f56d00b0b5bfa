//! What a look-up of addresses gives.
ghost use Rattle.std.specs.Prelude.{◌≡◌, ◌<◌, length, IfOk, IsOkUnless};
ghost use Rattle.hickory_proto_core.specs.ResponseKind.{first_query};
ghost use Rattle.hickory_resolver_model.specs.Lookup.{LookupValue};
ghost use Rattle.hickory_resolver_lookup.specs.LookupAddresses.{address_in, addresses_of};

use crate::lookup::Lookup;
use hickory_proto_core::{NetError, Query, Record};
use std::alloc::Global;
use std::iter::FusedIterator;
use std::marker::Model;
use std::net::IpAddr;
use std::{slice, vec};

/// A look-up that is read as addresses: those of the A and AAAA records of its answers (RFC 1035, section
/// 3.4.1; RFC 3596, section 2.2). Nothing but the copy takes memory.
#[derive(Debug, Drop)]
pub struct LookupIp {
    lookup: Lookup,
}

impl Model for LookupIp {
    ghost use Rattle.hickory_resolver_model.specs.Lookup.{LookupValue};

    ghost Value = { LookupValue };

    ghost view = { λ l. l.lookup };
}

impl LookupIp {
    /// The addresses of the answers, in order. Records of other types are passed over, and those of other
    /// sections are not looked at.
    pub fn iter(&self) -> LookupIpIter<'_>
        ensures { result ≡ addresses_of self.now.message.answers }
    {
        LookupIpIter {
            records: self.lookup.answers().iter(),
        }
    }

    /// The first question; there is one.
    pub fn query(&self) -> &Query
        ensures first { result.now ≡ first_query self.now.message.queries }
        ensures some { 0 < length self.now.message.queries }
    {
        self.lookup.query()
    }

    /// The last moment (seconds) at which it may be used.
    pub fn valid_until(&self) -> u64
        ensures { result ≡ self.now.valid_until }
    {
        self.lookup.valid_until()
    }

    /// The look-up, with all its records.
    pub fn as_lookup(&self) -> &Lookup
        ensures { result.now ≡ self.now }
    {
        &self.lookup
    }

    /// A copy of every field.
    pub fn clone(&self) -> Result<LookupIp, NetError>
        ensures ok { IfOk result (λ l. l ≡ self.now) }
        ensures err { IsOkUnless result NetError.OutOfMemory }
    {
        Ok(LookupIp {
            lookup: self.lookup.clone()?,
        })
    }
}

impl From<Lookup> for LookupIp {
    ghost use Rattle.std.specs.Prelude.{◌≡◌};

    ghost from_gives = { λ lookup addresses. addresses ≡ lookup };

    fn from(lookup: Lookup) -> LookupIp {
        LookupIp { lookup }
    }
}

impl From<LookupIp> for Lookup {
    ghost use Rattle.std.specs.Prelude.{◌≡◌};

    ghost from_gives = { λ addresses lookup. lookup ≡ addresses };

    fn from(addresses: LookupIp) -> Lookup {
        addresses.lookup
    }
}

impl IntoIterator for LookupIp {
    type Item = IpAddr;

    type IntoIter = LookupIpIntoIter;

    ghost into_iter_gives = { λ addresses iterator. iterator ≡ addresses_of addresses.message.answers };

    fn into_iter(self) -> LookupIpIntoIter {
        LookupIpIntoIter {
            records: self.lookup.into_message().answers.into_iter(),
        }
    }
}

/// The addresses of a look-up that is lent, seen as the list of those that are left. Behind the last it stays
/// at its end.
#[derive(Drop)]
pub struct LookupIpIter<'a> {
    records: slice::Iter<'a, Record>,
}

impl<'a> Model for LookupIpIter<'a> {
    ghost use Rattle.std.specs.Prelude.{List};
    ghost use Rattle.std.specs.Slice.Iter.{iter_rest};
    ghost use Rattle.std.specs.declared.net.IpAddr.{IpAddr};
    ghost use Rattle.hickory_resolver_lookup.specs.LookupAddresses.{addresses_of};

    ghost Value = { List IpAddr };

    ghost view = { λ it. addresses_of (iter_rest it.records) };
}

impl<'a> Iterator for LookupIpIter<'a> {
    type Item = IpAddr;

    ghost use Rattle.std.specs.Iterator.{YieldsFirst, item_count};

    ghost next_gives = { YieldsFirst (λ addresses. addresses) };

    ghost remaining = { item_count (λ addresses. addresses) };

    fn next(&mut self) -> Option<IpAddr> {
        while let Some(entry) = self.records.next() {
            if let Some(address) = address(entry) {
                return Some(address);
            }
        }
        None
    }
}

impl<'a> FusedIterator for LookupIpIter<'a> {}

/// The addresses of a look-up that is given away, seen as the list of those that are left. Behind the last it
/// stays at its end.
#[derive(Drop)]
pub struct LookupIpIntoIter {
    records: vec::IntoIter<Record, Global>,
}

impl Model for LookupIpIntoIter {
    ghost use Rattle.std.specs.Prelude.{List};
    ghost use Rattle.std.specs.Vec.Iter.{into_iter_items};
    ghost use Rattle.std.specs.declared.net.IpAddr.{IpAddr};
    ghost use Rattle.hickory_resolver_lookup.specs.LookupAddresses.{addresses_of};

    ghost Value = { List IpAddr };

    ghost view = { λ it. addresses_of (into_iter_items it.records) };
}

impl Iterator for LookupIpIntoIter {
    type Item = IpAddr;

    ghost use Rattle.std.specs.Iterator.{YieldsFirst, item_count};

    ghost next_gives = { YieldsFirst (λ addresses. addresses) };

    ghost remaining = { item_count (λ addresses. addresses) };

    fn next(&mut self) -> Option<IpAddr> {
        while let Some(taken) = self.records.next() {
            if let Some(address) = address(&taken) {
                return Some(address);
            }
        }
        None
    }
}

impl FusedIterator for LookupIpIntoIter {}

// The address of a record.
fn address(entry: &Record) -> Option<IpAddr>
    ensures { result ≡ address_in entry.now.rdata }
{
    entry.rdata.ip_addr()
}

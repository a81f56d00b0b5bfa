//! A table of values by domain.
ghost use Rattle.std.specs.Prelude.{◌≡◌, ◌==◌, [], length, false, IsOk, OnErr, OnOk, option_copied};
ghost use Rattle.std.specs.Map.{lookup};
ghost use Rattle.std.specs.Option.{option_map};
ghost use Rattle.std.specs.Str.{bytes_eq};
ghost use Rattle.domain_table.specs.Names.{is_short};
ghost use Rattle.domain_table.specs.Domains.{found, inserted, value_of};

use crate::names::{is_short, lower_room, next_place, suffix};
use indexmap::IndexMap;
use std::alloc::{AllocError, Global};
use std::hash::{BuildHasher, BuildHasherDefault, FoldHasher};
use std::marker::Model;

/// Values by domain. A domain is octets as in a question (RFC 1035, section 3.1): labels, each behind the octet of its
/// length, and the root's octet 0 at the end. Domains are equal without case (RFC 4343).
#[derive(Drop)]
pub struct DomainTable<V, S: BuildHasher = BuildHasherDefault<FoldHasher>> {
    entries: IndexMap<Vec<u8>, V, S>,
}

impl<V, S: BuildHasher> Model for DomainTable<V, S> {
    ghost use Rattle.std.specs.Prelude.{List, ℕ};
    ghost use Rattle.domain_table.specs.Domains.{domains_of};

    ghost Value = { List (List ℕ × V) };

    ghost view = { λ t. domains_of t.entries.entries };
}

/// A domain that a table has, and that is a name or above it.
#[derive(Drop)]
pub struct Found<'a, V> {
    /// Where in the name the domain begins (octets): 0 where it is the name.
    pub place: usize,
    /// Its value.
    pub value: &'a V,
}

impl<V> DomainTable<V> {
    /// An empty table, with the default hasher, whose seed is fixed: where strangers choose the domains, take
    /// `with_hasher`. Takes no memory.
    pub fn new(alloc: Global) -> DomainTable<V>
        ensures { result ≡ [] }
    {
        DomainTable::with_hasher(alloc, BuildHasherDefault::new())
    }
}

impl<V, S: BuildHasher> DomainTable<V, S> {
    /// As `new`, with this hasher: one of random state where strangers choose the domains. Takes no memory.
    pub fn with_hasher(alloc: Global, hasher: S) -> DomainTable<V, S>
        ensures { result ≡ [] }
    {
        DomainTable {
            entries: IndexMap::with_hasher(alloc, hasher),
        }
    }

    /// Gives a domain a value, in place of the one that it has. A refused call is out of memory, and changes nothing.
    /// More than 255 octets are no domain: then nothing is kept.
    pub fn insert(&mut self, domain: &[u8], value: V) -> Result<(), AllocError>
    where
        V: Drop,
        ensures ok { OnOk result (self.new ≡ inserted domain.now value self.old) }
        ensures err { OnErr result (self.new ≡ self.old) }
        ensures not_kept { is_short domain.now ≡ false → IsOk result }
    {
        if !is_short(domain) {
            return Ok(());
        }
        let room = lower_room(domain);
        let key = Vec::from_slice(*self.entries.allocator(), &room[..domain.len()])?;
        match self.entries.insert(key, value) {
            Ok(_) => Ok(()),
            Err(_) => Err(AllocError),
        }
    }

    /// The value of this very domain. Takes no memory.
    pub fn get(&self, domain: &[u8]) -> Option<&V>
        ensures { option_copied result ≡ value_of domain.now self.now }
    {
        if !is_short(domain) {
            return None;
        }
        let room = lower_room(domain);
        self.entry(&room[..domain.len()])
    }

    /// The longest domain that has a value and is the name or above it. Where a name is cut short, or an octet is no
    /// label's length, nothing behind counts; more than 255 octets are no name, and nothing is found. Takes no memory,
    /// and one look-up for each label.
    pub fn find(&self, name: &[u8]) -> Option<Found<'_, V>>
        ensures { option_map (λ f. (f.place, f.value.now)) result ≡ found name.now self.now }
    {
        if !is_short(name) {
            return None;
        }
        let room = lower_room(name);
        let lower = &room[..name.len()];
        let mut place = 0;
        while place < name.len() {
            if let Some(value) = self.entry(suffix(lower, place)) {
                return Some(Found { place, value });
            }
            place = next_place(name, place);
        }
        None
    }

    // The value of a domain in lower case.
    fn entry(&self, lower: &[u8]) -> Option<&V>
        ensures { option_copied result ≡ lookup (bytes_eq lower.now) self.now }
    {
        self.entries.get(lower)
    }

    /// How many domains have a value.
    pub fn len(&self) -> usize
        ensures { result ≡ length self.now }
    {
        self.entries.len()
    }

    /// Whether no domain has a value.
    pub fn is_empty(&self) -> bool
        ensures { result ≡ (length self.now == 0) }
    {
        self.entries.is_empty()
    }
}

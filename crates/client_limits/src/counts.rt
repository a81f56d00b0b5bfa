//! How many clients wait.
ghost use Rattle.std.specs.Prelude.{◌≡◌, ◌<◌, ◌+◌, ◌-◌, IsSome, OnOk, OnErr, IfOk};
ghost use Rattle.std.specs.Ordering.{nat_cmp};
ghost use Rattle.std.specs.Map.{keys_of, lookup, set_value, remove_entry};
ghost use Rattle.std.specs.BTreeMap.{insert_entry, is_at};
ghost use Rattle.client_limits.specs.Counts.{HasNoZero, nobody, count_at, count_of, admits, added, removed, lowered, one_less};
ghost use Rattle.client_limits.specs.Networks.{counted_as};

use crate::limits::ClientLimits;
use crate::network::counted_as;
use std::alloc::{AllocError, Global};
use std::collections::BTreeMap;
use std::marker::Model;
use std::net::IpAddr;

// How many wait, by what their address counts as. It is in order, so that no stranger can make a look-up slow.
type Counts = BTreeMap<u128, usize>;

/// How many clients wait: in all, and of each address by what it counts as.
#[derive(Drop)]
pub struct ClientCounts {
    all: usize,
    of_networks: Counts,
}

impl Model for ClientCounts {
    ghost use Rattle.client_limits.specs.Counts.{CountsValue, HasNoZero};

    ghost Value = { CountsValue };

    ghost view = { λ c. record { all = c.all; of_networks = c.of_networks.entries } };

    ghost invariant = { λ c. HasNoZero c.of_networks.entries };
}

fn count_at(counts: &Counts, network: u128) -> usize
    ensures { result ≡ count_at network counts.now.entries }
{
    match counts.get(&network) {
        Some(count) => *count,
        None => 0,
    }
}

fn set_count(counts: &mut Counts, network: u128, count: usize) -> Result<(), AllocError>
    ensures ok { OnOk result (counts.new.entries ≡ insert_entry nat_cmp counts.old.entries network count) }
    ensures err { OnErr result (counts.new.entries ≡ counts.old.entries) }
    ensures keys { OnOk result (IsSome (lookup (is_at (nat_cmp network)) counts.old.entries)
        → keys_of counts.new.entries ≡ keys_of counts.old.entries) }
    ensures no_zero { 0 < count → HasNoZero counts.old.entries → HasNoZero counts.new.entries }
{
    counts.insert(network, count)?;
    Ok(())
}

fn lower(counts: &mut Counts, network: u128)
    ensures lowered { counts.new.entries ≡ lowered network counts.old.entries }
    ensures no_zero { 1 < count_at network counts.old.entries → HasNoZero counts.old.entries
        → HasNoZero counts.new.entries }
{
    if let Some(count) = counts.get_mut(&network) {
        *count = count.saturating_sub(1);
    }
}

// Of so many clients of a network one goes.
fn one_less(counts: &mut Counts, network: u128, count: usize)
    ensures less { counts.new.entries ≡ one_less network count counts.old.entries }
    ensures no_zero { count ≡ count_at network counts.old.entries → HasNoZero counts.old.entries
        → HasNoZero counts.new.entries }
{
    if count <= 1 {
        counts.remove(&network);
    } else {
        lower(counts, network);
    }
}

impl ClientCounts {
    /// Nobody waits. Takes no memory.
    pub fn new(alloc: Global) -> ClientCounts
        ensures { result ≡ nobody }
    {
        ClientCounts {
            all: 0,
            of_networks: BTreeMap::new(alloc),
        }
    }

    /// How many wait in all.
    pub fn count(&self) -> usize
        ensures { result ≡ self.now.all }
    {
        self.all
    }

    /// How many wait whose address counts as this one.
    pub fn of(&self, address: IpAddr) -> usize
        ensures { result ≡ count_of address self.now }
    {
        count_at(&self.of_networks, counted_as(address))
    }

    /// Whether one more may wait, of this address, where so many wait for its question already.
    pub fn admits(&self, limits: &ClientLimits, address: IpAddr, of_question: usize) -> bool
        ensures { result ≡ admits limits.now address of_question self.now }
    {
        self.all < limits.all
            && of_question < limits.of_question
            && self.of(address) < limits.of_address
    }

    /// One more waits; where that one waits no more, nothing has changed. Once they cannot be counted any more, memory is
    /// refused. A refused call changes nothing.
    pub fn add(&mut self, address: IpAddr) -> Result<(), AllocError>
        ensures ok { OnOk result (self.new ≡ added address self.old) }
        ensures err { OnErr result (self.new ≡ self.old) }
        ensures undone { OnOk result (removed address self.new ≡ self.old) }
    {
        let all = next(self.all)?;
        let count = next(self.of(address))?;
        set_count(&mut self.of_networks, counted_as(address), count)?;
        self.all = all;
        Ok(())
    }

    /// One of them waits no more; nothing changes where none of this address does. Takes no memory.
    pub fn remove(&mut self, address: IpAddr)
        ensures { self.new ≡ removed address self.old }
    {
        let count = self.of(address);
        if count == 0 {
            return;
        }
        one_less(&mut self.of_networks, counted_as(address), count);
        self.all = self.all.saturating_sub(1);
    }
}

// The number behind one.
fn next(number: usize) -> Result<usize, AllocError>
    ensures { IfOk result (λ next. next ≡ number + 1) }
{
    match number.checked_add(1) {
        Some(next) => Ok(next),
        None => Err(AllocError),
    }
}

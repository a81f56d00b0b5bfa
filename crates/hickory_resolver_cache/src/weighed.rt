//! Stores within a bound in octets.
ghost use Rattle.std.specs.Prelude.{◌≡◌, ◌<◌, ◌≤◌, ◌+◌, ◌-◌, true, Some, IsSome, IfOk, OnOk, OnErr};
ghost use Rattle.std.specs.List.{All};
ghost use Rattle.hickory_resolver_model.specs.Cache.{all_weight, entry_weight, insert_within, is_light, without};
ghost use Rattle.hickory_resolver_cache.specs.Octets.{AreWeighed, IsPutIn, IsShed, IsWeighed, fits, most_of};
ghost use Rattle.hickory_resolver_cache.specs.Turns.{HasItsWeight, IsKept, IsNumbered, IsPlaced, IsSameList, Pair, entries_of, pair_of};

use crate::entry::CacheEntry;
use crate::octets::Octets;
use crate::turns::{Index, Order, add, exchange, first_other, store, take_out, turn_of};
use std::alloc::AllocError;
use std::hash::BuildHasher;

// Puts an entry of this weight in as the newest, by this number, within the octets, where they are bounded. A refused
// call leaves the entries, their turns and what is held as they were.
pub fn store_within<S: BuildHasher>(
    index: &mut Index<S>,
    order: &mut Order,
    capacity: u64,
    octets: &mut Option<Octets>,
    number: u64,
    entry: CacheEntry,
    weight: u64,
) -> Result<(), AllocError>
    requires some { 0 < capacity }
    requires kept { IsKept capacity number index.old.entries order.old }
    requires weighed { AreWeighed octets.old number index.old.entries }
    requires weight { IsSome octets.old → weight ≡ entry_weight entry }
    requires light { is_light (most_of octets.old) entry ≡ true }
    ensures kept { OnOk result (IsKept capacity (number + 1) index.new.entries order.new) }
    ensures entries { OnOk result
        (entries_of index.new.entries (number + 1)
        ≡ insert_within (most_of octets.old) capacity (entries_of index.old.entries number) entry) }
    ensures weighed { OnOk result (AreWeighed octets.new (number + 1) index.new.entries) }
    ensures bound { most_of octets.new ≡ most_of octets.old }
    ensures refused { OnErr result (IsSameList index.old.entries number index.new.entries number order.new) }
    ensures unchanged { OnErr result (octets.new ≡ octets.old) }
{
    let Some(bounded) = *octets else {
        return store(index, order, capacity, number, entry);
    };
    let held = store_weighed(index, order, capacity, bounded, number, entry, weight)?;
    *octets = Some(Octets {
        most: bounded.most,
        held,
    });
    Ok(())
}

// The same where the octets are bounded: what all entries weigh after it. The new entry comes in, and its question's
// leaves, before the others make room, since nothing is refused from then on.
fn store_weighed<S: BuildHasher>(
    index: &mut Index<S>,
    order: &mut Order,
    capacity: u64,
    octets: Octets,
    number: u64,
    entry: CacheEntry,
    weight: u64,
) -> Result<u64, AllocError>
    requires some { 0 < capacity }
    requires kept { IsKept capacity number index.old.entries order.old }
    requires weighed { IsWeighed octets number index.old.entries }
    requires weight { weight ≡ entry_weight entry }
    requires light { is_light (Some octets.most) entry ≡ true }
    ensures kept { OnOk result (IsKept capacity (number + 1) index.new.entries order.new) }
    ensures entries { OnOk result
        (entries_of index.new.entries (number + 1)
        ≡ insert_within (Some octets.most) capacity (entries_of index.old.entries number) entry) }
    ensures weighed { IfOk result (λ held.
        IsWeighed (record { most = octets.most; held = held }) (number + 1) index.new.entries) }
    ensures refused { OnErr result (IsSameList index.old.entries number index.new.entries number order.new) }
{
    let own = (entry.valid_until, number);
    let others = put_in(index, order, octets.held, number, entry, weight)?;
    let left = shed(index, order, capacity, octets.most - weight, own, others);
    Ok(left + weight)
}

// Puts an entry in as the newest, by this number, in place of its question's: what the others weigh.
fn put_in<S: BuildHasher>(
    index: &mut Index<S>,
    order: &mut Order,
    held: u64,
    number: u64,
    entry: CacheEntry,
    weight: u64,
) -> Result<u64, AllocError>
    requires numbers { IsNumbered number index.old.entries }
    requires placed { IsPlaced index.old.entries order.old }
    requires each { All HasItsWeight index.old.entries }
    requires held { held ≡ all_weight (entries_of index.old.entries number) }
    requires weight { weight ≡ entry_weight entry }
    ensures put { OnOk result
        (IsPutIn (entry.valid_until, number) (pair_of entry number weight) index.new.entries order.new) }
    ensures others { OnOk result
        (entries_of index.new.entries number ≡ without entry.query (entries_of index.old.entries number)) }
    ensures held { IfOk result (λ others. others ≡ all_weight (entries_of index.new.entries number)) }
    ensures refused { OnErr result (IsSameList index.old.entries number index.new.entries number order.new) }
{
    let Some(turn) = turn_of(index, &entry.query) else {
        add(index, order, None, number, entry, weight)?;
        return Ok(held);
    };
    let gone = exchange(index, order, turn, number, entry, weight)?;
    Ok(held - gone)
}

// Takes out entries other than the newest, the one at the turn, until there are no more than the capacity and the
// others weigh no more than the room: what they weigh then. The earliest deadlines leave first.
fn shed<S: BuildHasher>(
    index: &mut Index<S>,
    order: &mut Order,
    capacity: u64,
    room: u64,
    own: (u64, u64),
    held: u64,
) -> u64
    requires some { 0 < capacity }
    requires put { (p : Pair) × IsPutIn own p index.old.entries order.old }
    requires held { held ≡ all_weight (entries_of index.old.entries own.1) }
    ensures put { (p : Pair) → IsPutIn own p index.old.entries order.old
        → IsPutIn own p index.new.entries order.new }
    ensures shed { IsShed capacity room own.1 index.old.entries index.new.entries }
    ensures held { result ≡ all_weight (entries_of index.new.entries own.1) }
{
    let mut left = held;
    while !fits(index, capacity, room, left) {
        let turn = first_other(order, own).unwrap();
        left -= take_out(index, order, Some(turn));
    }
    left
}

// Whether there are no more entries than the capacity, and those beside the newest, which weigh so much, have room.
fn fits<S: BuildHasher>(index: &Index<S>, capacity: u64, room: u64, others: u64) -> bool
    ensures { result ≡ fits capacity room index.now.entries others }
{
    index.len() as u64 <= capacity && others <= room
}

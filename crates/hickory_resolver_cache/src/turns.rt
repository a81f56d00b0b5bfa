//! The two maps of a cache: entries by question, and questions by deadline and number.
ghost use Rattle.std.specs.Prelude.{◌≡◌, ◌<◌, ◌≤◌, ◌+◌, ◌∷◌, ◌++◌, [], nat_eq, None, Some, cond, IfOk, OnOk, OnErr};
ghost use Rattle.std.specs.List.{IsDistinct};
ghost use Rattle.std.specs.Map.{keys_of};
ghost use Rattle.std.specs.Option.{option_map_or};
ghost use Rattle.std.specs.BTreeMap.{get as turn_get, is_at};
ghost use Rattle.indexmap.specs.IndexMap.{spare, get, IsUnique};
ghost use Rattle.hickory_proto_core.specs.Query.{query_eq};
ghost use Rattle.hickory_resolver_model.specs.Cache.{insert_entry};
ghost use Rattle.hickory_resolver_cache.specs.Turns.{Turn, by_number, entries_of, pair_of, turn_cmp, weight_at, IsKept, IsNumbered, IsPlaced, IsSameList, Gone, TurnGone, IsTaken, IsTurnOf, IsSomeTurn, IsFirstOther, IsFirstTurn, IsLeaving, Frees, IsStored};

use crate::entry::CacheEntry;
use crate::kept::Kept;
use hickory_proto_core::Query;
use indexmap::IndexMap;
use std::alloc::AllocError;
use std::collections::BTreeMap;
use std::hash::BuildHasher;
use std::ops::Bound;

/// Entries by question, in any order.
pub type Index<S> = IndexMap<Query, Kept, S>;

/// Questions by deadline, and under one deadline by number.
pub type Order = BTreeMap<(u64, u64), Query>;

// Puts an entry in as the newest, by this number. Room and the copy of its question come first: a refused
// call leaves the entries and their turns as they were.
pub fn store<S: BuildHasher>(
    index: &mut Index<S>,
    order: &mut Order,
    capacity: u64,
    number: u64,
    entry: CacheEntry,
) -> Result<(), AllocError>
    requires some { 0 < capacity }
    requires kept { IsKept capacity number index.old.entries order.old }
    ensures kept { OnOk result (IsKept capacity (number + 1) index.new.entries order.new) }
    ensures entries { OnOk result
        (entries_of index.new.entries (number + 1)
        ≡ insert_entry capacity (entries_of index.old.entries number) entry) }
    ensures refused { OnErr result (IsSameList index.old.entries number index.new.entries number order.new) }
{
    let Some(turn) = turn_of(index, &entry.query) else {
        let turn = leaving(index, order, capacity);
        return add(index, order, turn, number, entry, 0);
    };
    exchange(index, order, turn, number, entry, 0)?;
    Ok(())
}

// Puts an entry of this weight in as the newest, by this number, and takes out what stands at the turn, after which
// there is none for its question: what weight that had. Room and the copy of its question come first: a refused call
// leaves the entries and their turns as they were.
pub fn exchange<S: BuildHasher>(
    index: &mut Index<S>,
    order: &mut Order,
    turn: (u64, u64),
    number: u64,
    entry: CacheEntry,
    weight: u64,
) -> Result<u64, AllocError>
    requires numbers { IsNumbered number index.old.entries }
    requires placed { IsPlaced index.old.entries order.old }
    requires turn { IsSomeTurn index.old.entries (Some turn) }
    requires frees { Frees entry.query index.old.entries (Some turn) }
    ensures ok { OnOk result
        (IsStored (Some turn) number index.old.entries order.old (pair_of entry number weight) index.new.entries
        order.new) }
    ensures weight { IfOk result (λ w. w ≡ weight_at index.old.entries (Some turn)) }
    ensures refused { OnErr result (IsSameList index.old.entries number index.new.entries number order.new) }
{
    add_turn(index, order, number, &entry)?;
    let gone = take_out(index, order, Some(turn));
    insert_entry(index, entry, number, weight);
    Ok(gone)
}

// Puts an entry of this weight in as the newest, by this number, for a question that has none, and takes out what
// stands at the turn, if there is one. The entry comes in before the other leaves: what the map then moves into the
// free place is the pair that was just written. Room and the copy of its question come first: a refused call leaves
// the entries and their turns as they were.
pub fn add<S: BuildHasher>(
    index: &mut Index<S>,
    order: &mut Order,
    turn: Option<(u64, u64)>,
    number: u64,
    entry: CacheEntry,
    weight: u64,
) -> Result<(), AllocError>
    requires numbers { IsNumbered number index.old.entries }
    requires placed { IsPlaced index.old.entries order.old }
    requires turn { IsSomeTurn index.old.entries turn }
    requires new { get query_eq index.old entry.query ≡ None }
    ensures ok { OnOk result
        (IsStored turn number index.old.entries order.old (pair_of entry number weight) index.new.entries order.new) }
    ensures refused { OnErr result (IsSameList index.old.entries number index.new.entries number order.new) }
{
    add_turn(index, order, number, &entry)?;
    insert_entry(index, entry, number, weight);
    take_out(index, order, turn);
    Ok(())
}

// Makes room for one more entry, and gives the question of this one its turn, by this number. A refused call
// leaves the entries and their turns as they were.
fn add_turn<S: BuildHasher>(
    index: &mut Index<S>,
    order: &mut Order,
    number: u64,
    entry: &CacheEntry,
) -> Result<(), AllocError>
    ensures entries { index.new.entries ≡ index.old.entries }
    ensures room { OnOk result (0 < spare index.new) }
    ensures added { OnOk result ((u : Turn) →
        turn_get turn_cmp order.new u
        ≡ cond (is_at (turn_cmp (entry.now.valid_until, number)) u) (Some entry.now.query)
        (turn_get turn_cmp order.old u)) }
    ensures unchanged { OnErr result ((u : Turn) → turn_get turn_cmp order.new u ≡ turn_get turn_cmp order.old u) }
{
    index.reserve(1)?;
    let query = Clone::clone(&entry.query)?;
    order.insert((entry.valid_until, number), query)?;
    Ok(())
}

// Puts an entry of this weight last, by this number, where there is room and none for its question.
fn insert_entry<S: BuildHasher>(index: &mut Index<S>, entry: CacheEntry, number: u64, weight: u64)
    requires room { 0 < spare index.old }
    requires new { get query_eq index.old entry.query ≡ None }
    ensures { index.new.entries ≡ index.old.entries ++ pair_of entry number weight ∷ [] }
{
    let CacheEntry {
        query,
        result,
        original_time,
        valid_until,
    } = entry;
    let kept = Kept {
        result,
        original_time,
        valid_until,
        number,
        weight,
    };
    drop(index.insert(query, kept));
}

// Takes out the pair at a turn, if there is one: what it weighed. Its question is found by the spelling that the order
// has.
pub fn take_out<S: BuildHasher>(
    index: &mut Index<S>,
    order: &mut Order,
    turn: Option<(u64, u64)>,
) -> u64
    requires numbers { IsDistinct nat_eq (keys_of (by_number index.old.entries)) }
    requires taken { IsTaken index.old.entries order.old turn }
    ensures weight { result ≡ weight_at index.old.entries turn }
    ensures gone { Gone turn index.old.entries index.new.entries }
    ensures turn_gone { TurnGone turn order.old order.new }
    ensures room { spare index.old ≤ spare index.new }
    ensures unique { IsUnique query_eq index.new }
{
    // `len` is called for its clause that the questions are unique.
    let _len = index.len();
    let Some(turn) = turn else {
        return 0;
    };
    let query = order.remove(&turn).unwrap();
    kept_weight(index.swap_remove(&query))
}

// What the entry weighs, if there is one.
fn kept_weight(kept: Option<Kept>) -> u64
    ensures { result ≡ option_map_or (λ k. k.weight) kept 0 }
{
    match kept {
        Some(kept) => kept.weight,
        None => 0,
    }
}

// The turn of the question's entry.
pub fn turn_of<S: BuildHasher>(index: &Index<S>, query: &Query) -> Option<(u64, u64)>
    requires numbers { IsDistinct nat_eq (keys_of (by_number index.now.entries)) }
    ensures found { IsTurnOf query.now index.now.entries result }
    ensures unique { IsUnique query_eq index.now }
{
    // `len` is called for its clause that the questions are unique.
    let _len = index.len();
    match index.get(query) {
        Some(kept) => Some((kept.valid_until, kept.number)),
        None => None,
    }
}

// The turn of the entry that leaves when one comes in for a question that has none: the first, if it is full.
fn leaving<S: BuildHasher>(index: &Index<S>, order: &Order, capacity: u64) -> Option<(u64, u64)>
    ensures { IsLeaving capacity index.now.entries order.now result }
{
    if (index.len() as u64) < capacity {
        None
    } else {
        first(order)
    }
}

// The first turn.
fn first(order: &Order) -> Option<(u64, u64)>
    ensures { IsFirstTurn order.now result }
{
    match order.first_key_value() {
        Some((turn, _)) => Some(*turn),
        None => None,
    }
}

// The first turn that is not this one.
pub fn first_other(order: &Order, own: (u64, u64)) -> Option<(u64, u64)>
    ensures { IsFirstOther own order.now result }
{
    let first = first(order);
    if first != Some(own) {
        return first;
    }
    match order.range((Bound::Excluded(own), Bound::Unbounded)).next() {
        Some((other, _)) => Some(*other),
        None => None,
    }
}

//! Numbers given anew, where they have run out.
ghost use Rattle.std.specs.Prelude.{◌≡◌, ◌<◌, ◌+◌, ◌^◌, IfOk, OnOk, OnErr, IsPermutation};
ghost use Rattle.std.specs.List.Sorted.{IsSortedByKey};
ghost use Rattle.std.specs.Ordering.{nat_cmp};
ghost use Rattle.hickory_resolver_cache.specs.Turns.{IsNumbered, IsOrderOf, IsPlaced, IsSameList, renumbered};

use crate::kept::Kept;
use crate::turns::{Index, Order};
use hickory_proto_core::Query;
use std::alloc::AllocError;
use std::collections::BTreeMap;
use std::hash::BuildHasher;

// The number of the next store. Where the numbers have run out, each entry gets another one first, from 0 on
// in the order of the entries. Their list stays the same, also where memory runs out in between.
pub fn next_number<S: BuildHasher>(
    index: &mut Index<S>,
    order: &mut Order,
    next_number: u64,
) -> Result<u64, AllocError>
    requires numbers { IsNumbered next_number index.old.entries }
    requires placed { IsPlaced index.old.entries order.old }
    ensures ok { IfOk result (λ n. IsSameList index.old.entries next_number index.new.entries n order.new) }
    ensures more { IfOk result (λ n. n + 1 < 2 ^ 64) }
    ensures refused { OnErr result
        (IsSameList index.old.entries next_number index.new.entries next_number order.new) }
{
    if next_number < u64::MAX {
        return Ok(next_number);
    }
    sort_by_number(index)?;
    let fresh = order_of(index)?;
    number_anew(index);
    *order = fresh;
    Ok(index.len() as u64)
}

fn sort_by_number<S: BuildHasher>(index: &mut Index<S>) -> Result<(), AllocError>
    ensures sorted { OnOk result (IsSortedByKey (λ p. p.1.number) nat_cmp index.new.entries) }
    ensures reordered { IsPermutation index.old.entries index.new.entries }
{
    index.sort_unstable_by_key(
        |_query: &Query, kept: &Kept| -> u64
            ensures { result ≡ kept.now.number }
        { kept.number },
    )?;
    Ok(())
}

// The turns of the entries, if each had its place in the index as its number.
fn order_of<S: BuildHasher>(index: &Index<S>) -> Result<Order, AllocError>
    ensures ok { IfOk result (λ order. IsOrderOf index.now.entries order) }
{
    let mut order = BTreeMap::new(*index.allocator());
    for i in 0..index.len() {
        let (query, kept) = index.get_index(i).unwrap();
        order.insert((kept.valid_until, i as u64), Clone::clone(query)?)?;
    }
    Ok(order)
}

// Gives each entry its place in the index as its number.
fn number_anew<S: BuildHasher>(index: &mut Index<S>)
    ensures { index.new.entries ≡ renumbered 0 index.old.entries }
{
    for i in 0..index.len() {
        index[i].number = i as u64;
    }
}

//! The maps of askers.
ghost use Rattle.std.specs.Prelude.{◌≡◌, drop, slice_get, option_copied, OnOk, OnErr};
ghost use Rattle.std.specs.Ordering.{nat_cmp};
ghost use Rattle.std.specs.Map.{lookup, remove_entry};
ghost use Rattle.std.specs.Option.{option_map};
ghost use Rattle.std.specs.BTreeMap.{insert_entry, is_at};
ghost use Rattle.hickory_resolver_askers.specs.Askers.{pushed_flying, pushed_waiting, removed_flying, removed_waiting};

use crate::lists::{AskerList, WaitingAskers};
use std::alloc::AllocError;
use std::collections::BTreeMap;

/// The askers of transactions in flight, by number.
pub type Flying = BTreeMap<u64, AskerList>;

/// The askers of transactions that wait, by number.
pub type Waiting = BTreeMap<u64, WaitingAskers>;

// ---- in flight

pub(crate) fn flying_at(flying: &Flying, transaction: u64) -> Option<&AskerList>
    ensures { option_copied result ≡ lookup (is_at (nat_cmp transaction)) flying.now.entries }
{
    flying.get(&transaction)
}

pub(crate) fn insert_flying(
    flying: &mut Flying,
    transaction: u64,
    askers: AskerList,
) -> Result<(), AllocError>
    ensures ok { OnOk result (flying.new.entries ≡ insert_entry nat_cmp flying.old.entries transaction askers) }
    ensures err { OnErr result (flying.new.entries ≡ flying.old.entries) }
{
    flying.insert(transaction, askers)?;
    Ok(())
}

pub(crate) fn remove_flying(flying: &mut Flying, transaction: u64)
    ensures { flying.new.entries ≡ remove_entry (is_at (nat_cmp transaction)) flying.old.entries }
{
    drop(flying.remove(&transaction));
}

// One more asks for it.
pub(crate) fn push_flying(
    flying: &mut Flying,
    transaction: u64,
    number: u64,
) -> Result<(), AllocError>
    ensures ok { OnOk result (flying.new.entries ≡ pushed_flying transaction number flying.old.entries) }
    ensures err { OnErr result (flying.new.entries ≡ flying.old.entries) }
{
    match flying.get_mut(&transaction) {
        Some(askers) => askers.push(number),
        None => Ok(()),
    }
}

// This one does not ask for it any more.
pub(crate) fn remove_from_flying(flying: &mut Flying, transaction: u64, number: u64)
    ensures { flying.new.entries ≡ removed_flying transaction number flying.old.entries }
{
    if let Some(askers) = flying.get_mut(&transaction) {
        askers.remove(number);
    }
}

// ---- waiting

pub(crate) fn waiting_at(waiting: &Waiting, transaction: u64) -> Option<&WaitingAskers>
    ensures { option_copied result ≡ lookup (is_at (nat_cmp transaction)) waiting.now.entries }
{
    waiting.get(&transaction)
}

// The one that has waited longest.
pub(crate) fn first_of(waiting: &Waiting) -> Option<(u64, &WaitingAskers)>
    ensures { option_map (λ p. (p.0, p.1.now)) result ≡ slice_get waiting.now.entries 0 }
{
    match waiting.first_key_value() {
        Some((number, askers)) => Some((*number, askers)),
        None => None,
    }
}

pub(crate) fn insert_waiting(
    waiting: &mut Waiting,
    transaction: u64,
    askers: WaitingAskers,
) -> Result<(), AllocError>
    ensures ok { OnOk result (waiting.new.entries ≡ insert_entry nat_cmp waiting.old.entries transaction askers) }
    ensures err { OnErr result (waiting.new.entries ≡ waiting.old.entries) }
{
    waiting.insert(transaction, askers)?;
    Ok(())
}

pub(crate) fn remove_waiting(waiting: &mut Waiting, transaction: u64)
    ensures { waiting.new.entries ≡ remove_entry (is_at (nat_cmp transaction)) waiting.old.entries }
{
    drop(waiting.remove(&transaction));
}

pub(crate) fn remove_first(waiting: &mut Waiting)
    ensures { waiting.new.entries ≡ drop 1 waiting.old.entries }
{
    drop(waiting.pop_first());
}

pub(crate) fn push_waiting(
    waiting: &mut Waiting,
    transaction: u64,
    number: u64,
) -> Result<(), AllocError>
    ensures ok { OnOk result (waiting.new.entries ≡ pushed_waiting transaction number waiting.old.entries) }
    ensures err { OnErr result (waiting.new.entries ≡ waiting.old.entries) }
{
    match waiting.get_mut(&transaction) {
        Some(held) => held.askers.push(number),
        None => Ok(()),
    }
}

pub(crate) fn remove_from_waiting(waiting: &mut Waiting, transaction: u64, number: u64)
    ensures { waiting.new.entries ≡ removed_waiting transaction number waiting.old.entries }
{
    if let Some(held) = waiting.get_mut(&transaction) {
        held.askers.remove(number);
    }
}

//! The askers of one transaction.
ghost use Rattle.std.specs.Prelude.{◌≡◌, ◌++◌, ◌∷◌, ◌==◌, [], position, IfOk, OnOk, OnErr};
ghost use Rattle.std.specs.List.{list_any};
ghost use Rattle.hickory_resolver_askers.specs.Askers.{without, what_is_left};

use crate::asker::Forgotten;
use std::alloc::{AllocError, Global};
use std::marker::Model;

/// The numbers of those who ask for one transaction.
#[derive(Drop)]
pub struct AskerList {
    numbers: Vec<u64>,
}

impl Model for AskerList {
    ghost use Rattle.std.specs.Prelude.{ℕ, List};

    ghost Value = { List ℕ };

    ghost view = { λ l. l.numbers.items };
}

/// The same of a transaction that waits.
#[derive(Drop)]
pub struct WaitingAskers {
    /// Up to when it waits.
    pub until: u64,
    /// Who asks.
    pub askers: AskerList,
}

impl Model for WaitingAskers {
    ghost use Rattle.hickory_resolver_askers.specs.Askers.{WaitingValue};

    ghost Value = { WaitingValue };

    ghost view = { λ w. record { until = w.until; askers = w.askers } };
}

impl AskerList {
    // One alone.
    pub(crate) fn one(alloc: Global, number: u64) -> Result<AskerList, AllocError>
        ensures { IfOk result (λ l. l ≡ number ∷ []) }
    {
        let mut numbers = Vec::new(alloc);
        numbers.push(number)?;
        Ok(AskerList { numbers })
    }

    // The same ones.
    pub(crate) fn copied(&self, alloc: Global) -> Result<AskerList, AllocError>
        ensures { IfOk result (λ l. l ≡ self.now) }
    {
        let numbers = Vec::from_slice(alloc, &self.numbers)?;
        Ok(AskerList { numbers })
    }

    // One more.
    pub(crate) fn push(&mut self, number: u64) -> Result<(), AllocError>
        ensures ok { OnOk result (self.new ≡ self.old ++ number ∷ []) }
        ensures err { OnErr result (self.new ≡ self.old) }
    {
        self.numbers.push(number)?;
        Ok(())
    }

    // Without the one of this number, where there is one.
    pub(crate) fn remove(&mut self, number: u64)
        ensures { self.new ≡ without number self.old }
    {
        if let Some(at) = place_of(&self.numbers, number) {
            self.numbers.remove(at);
        }
    }

    // Whether others ask still once this one is forgotten.
    pub(crate) fn left_without(&self, number: u64) -> Forgotten
        ensures { result ≡ what_is_left number self.now }
    {
        left_without(&self.numbers, number)
    }

    /// The numbers.
    pub fn as_slice(&self) -> &[u64]
        ensures { result.now ≡ self.now }
    {
        &self.numbers
    }
}

// Where a number stands.
fn place_of(numbers: &[u64], number: u64) -> Option<usize>
    ensures { result ≡ position (λ n. n == number) numbers.now }
{
    numbers.iter().position(|one| *one == number)
}

fn has(numbers: &[u64], number: u64) -> bool
    ensures { result ≡ list_any (λ n. n == number) numbers.now }
{
    numbers.iter().any(|one| *one == number)
}

fn left_without(numbers: &[u64], number: u64) -> Forgotten
    ensures { result ≡ what_is_left number numbers.now }
{
    if !has(numbers, number) {
        Forgotten::Nobody
    } else if numbers.len() == 1 {
        Forgotten::Last
    } else {
        Forgotten::OthersAsk
    }
}

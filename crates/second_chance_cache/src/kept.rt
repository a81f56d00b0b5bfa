//! What a cache keeps under a key.
ghost use Rattle.std.specs.Prelude.{◌≡◌, false, option_copied, IfOk};
ghost use Rattle.std.specs.Option.{option_map};
ghost use Rattle.second_chance_cache.specs.SecondChance.{if_current, is_current, is_passed_by, marked_at, unmarked};

use std::alloc::{AllocError, Global};
use std::marker::Model;

/// A value under its key, what it weighs (octets), its deadline (the last second at which it is current), and whether
/// it was asked for again since it was stored or was last passed by.
#[derive(Drop)]
pub struct Kept<V> {
    pub key: Vec<u8>,
    pub value: V,
    pub weight: u64,
    pub deadline: u64,
    pub asked_again: bool,
}

impl<V> Model for Kept<V> {
    ghost use Rattle.second_chance_cache.specs.SecondChance.{Entry};

    ghost Value = { Entry V };

    ghost view = { λ k. record {
      key = k.key.items;
      value = k.value;
      weight = k.weight;
      deadline = k.deadline;
      asked_again = k.asked_again;
    } };
}

impl<V> Kept<V> {
    /// A value that was not asked for yet.
    pub fn new(
        alloc: Global,
        key: &[u8],
        value: V,
        weight: u64,
        deadline: u64,
    ) -> Result<Kept<V>, AllocError>
    where
        V: Drop,
        ensures { IfOk result (λ kept. kept ≡ record {
          key = key.now;
          value = value;
          weight = weight;
          deadline = deadline;
          asked_again = false;
        }) }
    {
        match Vec::from_slice(alloc, key) {
            Ok(key) => Ok(Kept {
                key,
                value,
                weight,
                deadline,
                asked_again: false,
            }),
            Err(error) => Err(error),
        }
    }

    pub fn key(&self) -> &[u8]
        ensures { result.now ≡ self.now.key }
    {
        &self.key
    }

    pub fn weight(&self) -> u64
        ensures { result ≡ self.now.weight }
    {
        self.weight
    }

    // The value, where it is current at a second.
    pub fn told(&self, now: u64) -> Option<&V>
        ensures { option_copied result ≡ option_map (λ e. e.value) (if_current now self.now) }
    {
        if self.is_current(now) {
            Some(&self.value)
        } else {
            None
        }
    }

    // Whether it is current at a second: the deadline is.
    pub fn is_current(&self, now: u64) -> bool
        ensures { result ≡ is_current now self.now }
    {
        now <= self.deadline
    }

    // Whether the hand passes it by.
    pub fn is_passed_by(&self, now: u64) -> bool
        ensures { result ≡ is_passed_by now self.now }
    {
        self.asked_again && self.is_current(now)
    }

    // It is asked for at a second.
    pub fn mark(&mut self, now: u64)
        ensures { self.new ≡ marked_at now self.old }
    {
        if self.is_current(now) {
            self.asked_again = true;
        }
    }

    // It is passed by.
    pub fn unmark(&mut self)
        ensures { self.new ≡ unmarked self.old }
    {
        self.asked_again = false;
    }
}

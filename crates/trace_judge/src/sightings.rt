//! What was received, by the keys of its records.
ghost use Rattle.std.specs.Prelude.{◌≡◌, [], IfOk, OnOk, filter, not};
ghost use Rattle.std.specs.List.{list_any};
ghost use Rattle.trace_judge.specs.Index.{Adds, Forgets, is_lasting, is_outdone, seen_at, with_reception};
ghost use Rattle.trace_judge.specs.RecordKeys.{sought_key};

use crate::receptions::{Reception, is_same_record};
use crate::record_key::{RecordKey, record_key, sought_key};
use hickory_proto_core::Query;
use std::alloc::{AllocError, Global};
use std::collections::HashMap;
use std::marker::Model;

// How many keys there are before any are forgotten.
const FEW: usize = 1024;

/// What was received under one key.
#[derive(Drop)]
pub struct Seen {
    receptions: Vec<Reception>,
}

impl Model for Seen {
    ghost use Rattle.std.specs.Prelude.{List};
    ghost use Rattle.trace_judge.specs.declared.receptions.Reception.{Reception};

    ghost Value = { List Reception };

    ghost view = { λ s. s.receptions.items };
}

impl Seen {
    /// Nothing was received yet.
    pub fn new(alloc: Global) -> Seen
        ensures { result ≡ [] }
    {
        Seen {
            receptions: Vec::new(alloc),
        }
    }

    /// All receptions.
    pub fn as_slice(&self) -> &[Reception]
        ensures { result.now ≡ self.now }
    {
        &self.receptions
    }

    /// One more reception. Of those that others outdo none are kept.
    pub fn add(&mut self, new: Reception) -> Result<(), AllocError>
        ensures { OnOk result (self.new ≡ with_reception new self.old) }
    {
        if is_any_better(&self.receptions, &new) {
            return Ok(());
        }
        drop_worse(&mut self.receptions, &new);
        self.receptions.push(new)?;
        Ok(())
    }

    /// Whether some reception has not run out before a moment, in milliseconds.
    pub fn is_lasting(&self, moment: u64) -> bool
        ensures { result ≡ is_lasting moment self.now }
    {
        self.receptions.iter().any(|r| moment <= r.deadline())
    }
}

fn is_any_better(receptions: &[Reception], new: &Reception) -> bool
    ensures { result ≡ list_any (λ r. is_outdone r new.now) receptions.now }
{
    receptions.iter().any(|r| is_outdone(r, new))
}

fn drop_worse(receptions: &mut Vec<Reception>, new: &Reception)
    ensures { receptions.new.items ≡ filter (λ r. not (is_outdone new.now r)) receptions.old.items }
{
    receptions.retain(|r| !is_outdone(new, r));
}

// Whether another reception of the same record runs out no earlier, with a TTL that is no less.
fn is_outdone(by: &Reception, r: &Reception) -> bool
    ensures { result ≡ is_outdone by.now r.now }
{
    is_same_record(&r.found, &by.found)
        && r.deadline() <= by.deadline()
        && r.found.ttl <= by.found.ttl
}

/// What was received, by the keys of its records.
#[derive(Drop)]
pub struct Sightings {
    alloc: Global,
    seen: HashMap<RecordKey, Seen>,
    // How many keys there are before any are forgotten.
    many: usize,
}

impl Model for Sightings {
    ghost use Rattle.std.specs.Prelude.{List};
    ghost use Rattle.trace_judge.specs.RecordKeys.{KeyValue};
    ghost use Rattle.trace_judge.specs.declared.receptions.Reception.{Reception};

    ghost Value = { List (KeyValue × List Reception) };

    ghost view = { λ s. s.seen.entries };
}

impl Sightings {
    /// Nothing was received yet.
    pub fn new(alloc: Global) -> Sightings
        ensures { result ≡ [] }
    {
        Sightings {
            alloc,
            seen: HashMap::new(alloc),
            many: FEW,
        }
    }

    /// What was received under a key.
    pub fn of(&self, key: &RecordKey) -> &[Reception]
        ensures { result.now ≡ seen_at self.now key.now }
    {
        match self.seen.get(key) {
            Some(seen) => seen.as_slice(),
            None => &[],
        }
    }

    /// What was received for a question, of what is looked for by its question alone.
    pub fn sought(&self, query: Query) -> &[Reception]
        ensures { result.now ≡ seen_at self.now (sought_key query) }
    {
        self.of(&sought_key(self.alloc, query))
    }

    /// One more reception.
    pub fn add(&mut self, new: Reception) -> Result<(), AllocError>
        ensures { OnOk result (Adds new self.old self.new) }
    {
        let key = record_key(self.alloc, &new.found)?;
        let mut seen = self.seen.remove(&key).unwrap_or(Seen::new(self.alloc));
        seen.add(new)?;
        self.seen.insert(key, seen)?;
        Ok(())
    }

    /// Forgets what ran out before a moment, in milliseconds, where there has come to be much.
    pub fn forget(&mut self, moment: u64)
        ensures { Forgets moment self.old self.new }
    {
        if self.seen.len() < self.many {
            return;
        }
        drop_ended(&mut self.seen, moment);
        self.many = FEW.saturating_add(self.seen.len().saturating_mul(2));
    }
}

fn drop_ended(seen: &mut HashMap<RecordKey, Seen>, moment: u64)
    ensures { Forgets moment seen.old.entries seen.new.entries }
{
    seen.retain(|_, s| s.is_lasting(moment));
}

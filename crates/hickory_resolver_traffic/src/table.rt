//! Transactions by number.
ghost use Rattle.std.specs.Prelude.{◌≡◌, IfErr, OnOk, OnErr, Some};
ghost use Rattle.hickory_resolver_traffic.specs.Table.{no_entries, entry_at, has_entry, with_entry, without_entry, first_due, dated, not_dated, redated, undated, first_blocked, is_blocked, with_blocked, without_blocked};

use crate::entry::Entry;
use std::alloc::{AllocError, AllocFailed, Global};
use std::collections::{BTreeMap, BTreeSet};
use std::marker::Model;

/// Moments, each with the number of a transaction.
pub type Deadlines = BTreeSet<(u64, u64)>;

/// Transactions by number, by deadline, and those that wait for a channel.
#[derive(Drop)]
pub struct Table {
    entries: BTreeMap<u64, Entry>,
    deadlines: Deadlines,
    blocked: BTreeSet<u64>,
}

impl Model for Table {
    ghost use Rattle.hickory_resolver_traffic.specs.Table.{TableState};

    ghost Value = { TableState };

    ghost view = { λ t. record {
      entries = t.entries.entries;
      deadlines = t.deadlines.keys;
      blocked = t.blocked.keys;
    } };
}

impl Table {
    /// No transactions.
    pub fn new(alloc: Global) -> Table
        ensures { result ≡ no_entries }
    {
        Table {
            entries: BTreeMap::new(alloc),
            deadlines: BTreeSet::new(alloc),
            blocked: BTreeSet::new(alloc),
        }
    }

    /// Whether there is a transaction of a number.
    pub fn has_entry(&self, number: u64) -> bool
        ensures { result ≡ has_entry number self.now }
    {
        self.entries.contains_key(&number)
    }

    /// Adds a transaction. Where memory is refused it comes back, and nothing changes.
    pub fn insert(&mut self, number: u64, entry: Entry) -> Result<(), Entry>
        ensures ok { OnOk result (self.new ≡ with_entry number entry self.old) }
        ensures err { OnErr result (self.new ≡ self.old) }
        ensures back { IfErr result (λ e. e ≡ entry) }
    {
        match self.entries.insert(number, entry) {
            Ok(_) => Ok(()),
            Err(AllocFailed { value }) => Err(value.1),
        }
    }

    /// Takes a transaction out, where there is one of this number.
    pub fn take(&mut self, number: u64) -> Option<Entry>
        ensures taken { result ≡ entry_at number self.old }
        ensures after { self.new ≡ without_entry number self.old }
    {
        self.entries.remove(&number)
    }

    // ---- deadlines

    /// The earliest deadline, and the number of its transaction.
    pub fn first_due(&self) -> Option<(u64, u64)>
        ensures { result ≡ first_due self.now }
    {
        self.deadlines.first().copied()
    }

    /// A transaction is due at another moment. A refused call changes nothing.
    pub fn redate(
        &mut self,
        number: u64,
        old: Option<u64>,
        new: Option<u64>,
    ) -> Result<(), AllocError>
        ensures ok { OnOk result (self.new ≡ redated number old new self.old) }
        ensures err { OnErr result (self.new ≡ self.old) }
    {
        date(&mut self.deadlines, number, new)?;
        undate(&mut self.deadlines, number, old);
        Ok(())
    }

    /// A transaction is not due any more.
    pub fn undate(&mut self, number: u64, old: Option<u64>)
        ensures { self.new ≡ undated number old self.old }
    {
        undate(&mut self.deadlines, number, old);
    }

    // ---- those that wait for a channel

    /// The number of the first that waits for a channel.
    pub fn first_blocked(&self) -> Option<u64>
        ensures { result ≡ first_blocked self.now }
    {
        self.blocked.first().copied()
    }

    /// Whether a transaction waits for a channel.
    pub fn is_blocked(&self, number: u64) -> bool
        ensures { result ≡ is_blocked number self.now }
    {
        self.blocked.contains(&number)
    }

    /// A transaction waits for a channel. A refused call changes nothing.
    pub fn block(&mut self, number: u64) -> Result<(), AllocError>
        ensures ok { OnOk result (self.new ≡ with_blocked number self.old) }
        ensures err { OnErr result (self.new ≡ self.old) }
    {
        self.blocked.insert(number)?;
        Ok(())
    }

    /// A transaction does not wait for a channel any more.
    pub fn unblock(&mut self, number: u64)
        ensures { self.new ≡ without_blocked number self.old }
    {
        self.blocked.remove(&number);
    }
}

fn date(deadlines: &mut Deadlines, number: u64, due: Option<u64>) -> Result<(), AllocError>
    ensures ok { OnOk result (deadlines.new.keys ≡ dated number due deadlines.old.keys) }
    ensures err { OnErr result (deadlines.new.keys ≡ deadlines.old.keys) }
{
    match due {
        None => Ok(()),
        Some(due) => insert_due(deadlines, number, due),
    }
}

fn insert_due(deadlines: &mut Deadlines, number: u64, due: u64) -> Result<(), AllocError>
    ensures ok { OnOk result (deadlines.new.keys ≡ dated number (Some due) deadlines.old.keys) }
    ensures err { OnErr result (deadlines.new.keys ≡ deadlines.old.keys) }
{
    deadlines.insert((due, number))?;
    Ok(())
}

fn undate(deadlines: &mut Deadlines, number: u64, due: Option<u64>)
    ensures { deadlines.new.keys ≡ not_dated number due deadlines.old.keys }
{
    if let Some(due) = due {
        deadlines.remove(&(due, number));
    }
}

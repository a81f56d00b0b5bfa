//! Askers of transactions in flight, and of those that wait.
ghost use Rattle.std.specs.Prelude.{◌≡◌, ◌+◌, option_copied, IfOk, OnOk, OnErr, Some};
ghost use Rattle.std.specs.Option.{is_some, is_none, option_map};
ghost use Rattle.hickory_resolver_askers.specs.Askers.{nobody, flying_at, waiting_at, is_flying, is_waiting, askers_of, has_place, first_waiting, place_for, next_one, begun_in, begun, given_in, asker_given, joined_flying, joined_waiting, joined, joiner, over, what_is_left, left_of, forgot_as, forgot, to_admit, flying_too, admitted_too, admitted_one, admitted, next_deadline, if_late, late_one};

use crate::asker::{Asker, AskerLimits, Forgotten, Place};
use crate::lists::{AskerList, WaitingAskers};
use crate::maps::{
    Flying, Waiting, first_of, flying_at, insert_flying, insert_waiting, push_flying, push_waiting,
    remove_first, remove_flying, remove_from_flying, remove_from_waiting, remove_waiting,
    waiting_at,
};
use std::alloc::{AllocError, Global};
use std::collections::BTreeMap;
use std::marker::Model;

/// Who asks for which transaction, within limits. No number is given twice.
#[derive(Drop)]
pub struct Askers {
    limits: AskerLimits,
    next_transaction: u64,
    next_asker: u64,
    in_flight: Flying,
    waiting: Waiting,
}

impl Model for Askers {
    ghost use Rattle.hickory_resolver_askers.specs.Askers.{AskersState};

    ghost Value = { AskersState };

    ghost view = { λ a. record {
      limits = a.limits;
      next_transaction = a.next_transaction;
      next_asker = a.next_asker;
      in_flight = a.in_flight.entries;
      waiting = a.waiting.entries;
    } };
}

impl Askers {
    /// Nobody, and how many transactions there may be.
    pub fn new(alloc: Global, limits: AskerLimits) -> Askers
        ensures { result ≡ nobody limits }
    {
        Askers {
            limits,
            next_transaction: 0,
            next_asker: 0,
            in_flight: BTreeMap::new(alloc),
            waiting: BTreeMap::new(alloc),
        }
    }

    /// The askers of a transaction.
    pub fn askers(&self, transaction: u64) -> Option<&AskerList>
        ensures { option_copied result ≡ askers_of transaction self.now }
    {
        match flying_at(&self.in_flight, transaction) {
            Some(askers) => Some(askers),
            None => self.waiting_askers(transaction),
        }
    }

    fn waiting_askers(&self, transaction: u64) -> Option<&AskerList>
        ensures { option_copied result ≡ option_map (λ w. w.askers) (waiting_at transaction self.now) }
    {
        match waiting_at(&self.waiting, transaction) {
            Some(held) => Some(&held.askers),
            None => None,
        }
    }

    fn is_flying(&self, transaction: u64) -> bool
        ensures { result ≡ is_flying transaction self.now }
    {
        flying_at(&self.in_flight, transaction).is_some()
    }

    fn is_waiting(&self, transaction: u64) -> bool
        ensures { result ≡ is_waiting transaction self.now }
    {
        waiting_at(&self.waiting, transaction).is_some()
    }

    /// Whether one more may be in flight.
    pub fn has_place(&self) -> bool
        ensures { result ≡ has_place self.now }
    {
        self.in_flight.len() < self.limits.transactions
    }

    // Whether none waits.
    fn none_waits(&self) -> bool
        ensures { result ≡ is_none (first_waiting self.now) }
    {
        first_of(&self.waiting).is_none()
    }

    /// Where there is place for a question that nobody asks. It overtakes none that waits.
    pub fn place(&self) -> Place
        ensures { result ≡ place_for self.now }
    {
        if self.has_place() && self.none_waits() {
            Place::InFlight
        } else if self.waiting.len() < self.limits.waiting {
            Place::Waits
        } else {
            Place::Overloaded
        }
    }

    /// The number of the transaction that begins next.
    pub fn next_transaction(&self) -> u64
        ensures { result ≡ self.now.next_transaction }
    {
        self.next_transaction
    }

    // ---- asking

    fn next_one(&self) -> Asker
        ensures { result ≡ next_one self.now }
    {
        Asker {
            transaction: self.next_transaction,
            number: self.next_asker,
        }
    }

    /// One asks what nobody asks, and is answered its number, where there is place: it waits for one up to this moment,
    /// where it waits. Once numbers have run out, after 2^64 - 1 of them, memory is refused. A refused call changes
    /// nothing.
    pub fn begin(&mut self, alloc: Global, until: u64) -> Result<Option<Asker>, AllocError>
        ensures told { IfOk result (λ asker. asker ≡ asker_given self.old) }
        ensures ok { OnOk result (self.new ≡ begun until self.old) }
        ensures err { OnErr result (self.new ≡ self.old) }
    {
        match self.place() {
            Place::InFlight => self.begin_flying(alloc, until),
            Place::Waits => self.begin_waiting(alloc, until),
            Place::Overloaded => Ok(None),
        }
    }

    fn begin_flying(&mut self, alloc: Global, until: u64) -> Result<Option<Asker>, AllocError>
        ensures told { IfOk result (λ asker. asker ≡ Some (next_one self.old)) }
        ensures ok { OnOk result (self.new ≡ begun_in Place.InFlight until self.old) }
        ensures err { OnErr result (self.new ≡ self.old) }
    {
        let one = self.next_one();
        let next_transaction = next(self.next_transaction)?;
        let next_asker = next(self.next_asker)?;
        let askers = AskerList::one(alloc, one.number)?;
        insert_flying(&mut self.in_flight, one.transaction, askers)?;
        self.next_transaction = next_transaction;
        self.next_asker = next_asker;
        Ok(Some(one))
    }

    fn begin_waiting(&mut self, alloc: Global, until: u64) -> Result<Option<Asker>, AllocError>
        ensures told { IfOk result (λ asker. asker ≡ Some (next_one self.old)) }
        ensures ok { OnOk result (self.new ≡ begun_in Place.Waits until self.old) }
        ensures err { OnErr result (self.new ≡ self.old) }
    {
        let one = self.next_one();
        let next_transaction = next(self.next_transaction)?;
        let next_asker = next(self.next_asker)?;
        let askers = AskerList::one(alloc, one.number)?;
        let held = WaitingAskers { until, askers };
        insert_waiting(&mut self.waiting, one.transaction, held)?;
        self.next_transaction = next_transaction;
        self.next_asker = next_asker;
        Ok(Some(one))
    }

    /// One asks what is asked already, and is answered its number, where there is such a transaction. A refused call
    /// changes nothing.
    pub fn join(&mut self, transaction: u64) -> Result<Option<Asker>, AllocError>
        ensures told { IfOk result (λ asker. asker ≡ joiner transaction self.old) }
        ensures ok { OnOk result (self.new ≡ joined transaction self.old) }
        ensures err { OnErr result (self.new ≡ self.old) }
    {
        if self.is_flying(transaction) {
            self.join_flying(transaction)
        } else if self.is_waiting(transaction) {
            self.join_waiting(transaction)
        } else {
            Ok(None)
        }
    }

    fn join_flying(&mut self, transaction: u64) -> Result<Option<Asker>, AllocError>
        ensures told { IfOk result (λ asker.
            asker ≡ Some (record { transaction = transaction; number = self.old.next_asker })) }
        ensures ok { OnOk result (self.new ≡ joined_flying transaction self.old) }
        ensures err { OnErr result (self.new ≡ self.old) }
    {
        let number = self.next_asker;
        let next_asker = next(number)?;
        push_flying(&mut self.in_flight, transaction, number)?;
        self.next_asker = next_asker;
        Ok(Some(Asker {
            transaction,
            number,
        }))
    }

    fn join_waiting(&mut self, transaction: u64) -> Result<Option<Asker>, AllocError>
        ensures told { IfOk result (λ asker.
            asker ≡ Some (record { transaction = transaction; number = self.old.next_asker })) }
        ensures ok { OnOk result (self.new ≡ joined_waiting transaction self.old) }
        ensures err { OnErr result (self.new ≡ self.old) }
    {
        let number = self.next_asker;
        let next_asker = next(number)?;
        push_waiting(&mut self.waiting, transaction, number)?;
        self.next_asker = next_asker;
        Ok(Some(Asker {
            transaction,
            number,
        }))
    }

    // ---- ending

    /// A transaction is over: nobody asks for it any more.
    pub fn over(&mut self, transaction: u64)
        ensures { self.new ≡ over transaction self.old }
    {
        remove_flying(&mut self.in_flight, transaction);
        remove_waiting(&mut self.waiting, transaction);
    }

    fn left_of(&self, asker: &Asker) -> Forgotten
        ensures { result ≡ left_of asker.now self.now }
    {
        match self.askers(asker.transaction) {
            Some(askers) => askers.left_without(asker.number),
            None => Forgotten::Nobody,
        }
    }

    /// Forgets an asker, and tells whether others ask the same still: with the last the transaction is over.
    pub fn forget(&mut self, asker: &Asker) -> Forgotten
        ensures told { result ≡ left_of asker.now self.old }
        ensures after { self.new ≡ forgot asker.now self.old }
    {
        let left = self.left_of(asker);
        self.forget_as(left, asker);
        left
    }

    fn forget_as(&mut self, left: Forgotten, asker: &Asker)
        ensures { self.new ≡ forgot_as left asker.now self.old }
    {
        match left {
            Forgotten::Nobody => {}
            Forgotten::OthersAsk => {
                remove_from_flying(&mut self.in_flight, asker.transaction, asker.number);
                remove_from_waiting(&mut self.waiting, asker.transaction, asker.number);
            }
            Forgotten::Last => self.over(asker.transaction),
        }
    }

    // ---- those that wait

    /// Gives the first transaction that waits a place, where there is one, and answers its number. A refused call
    /// changes nothing.
    pub fn admit(&mut self, alloc: Global) -> Result<Option<u64>, AllocError>
        ensures told { IfOk result (λ number. number ≡ option_map (λ first. first.0) (to_admit self.old)) }
        ensures ok { OnOk result (self.new ≡ admitted self.old) }
        ensures err { OnErr result (self.new ≡ self.old) }
    {
        let Some(number) = self.copy_admitted(alloc)? else {
            return Ok(None);
        };
        remove_first(&mut self.waiting);
        Ok(Some(number))
    }

    // The first that waits is in flight too.
    fn copy_admitted(&mut self, alloc: Global) -> Result<Option<u64>, AllocError>
        ensures told { IfOk result (λ number. number ≡ option_map (λ first. first.0) (to_admit self.old)) }
        ensures ok { OnOk result (self.new ≡ admitted_too self.old) }
        ensures err { OnErr result (self.new ≡ self.old) }
    {
        if !self.has_place() {
            return Ok(None);
        }
        match first_of(&self.waiting) {
            None => Ok(None),
            Some((number, held)) => {
                let askers = held.askers.copied(alloc)?;
                insert_flying(&mut self.in_flight, number, askers)?;
                Ok(Some(number))
            }
        }
    }

    /// Up to when the first waits.
    pub fn next_deadline(&self) -> Option<u64>
        ensures { result ≡ next_deadline self.now }
    {
        match first_of(&self.waiting) {
            Some((_, held)) => Some(held.until),
            None => None,
        }
    }

    /// The first that waits, where its time has passed.
    pub fn late_one(&self, now: u64) -> Option<u64>
        ensures { result ≡ late_one now self.now }
    {
        match first_of(&self.waiting) {
            Some((number, held)) if held.until <= now => Some(number),
            _ => None,
        }
    }
}

// The number behind one.
fn next(number: u64) -> Result<u64, AllocError>
    ensures { IfOk result (λ next. next ≡ number + 1) }
{
    match number.checked_add(1) {
        Some(next) => Ok(next),
        None => Err(AllocError),
    }
}

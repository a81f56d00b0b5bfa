//! The clock behind a cache: entries in slots, from the hand on, and the number of each entry's slot by its key.
ghost use Rattle.std.specs.Prelude.{◌≡◌, ℕ, List, ◌<◌, ◌+◌, ◌-◌, ◌%◌, ◌^◌, ◌++◌, ◌∷◌, [], true, false, ◌≤◌, Some, drop, find, length, slice_get, option_copied, IfOk, OnErr, OnOk};
ghost use Rattle.std.specs.VecDeque.{deque_capacity, deque_len};
ghost use Rattle.std.specs.Fn.{FnReturnsAt};
ghost use Rattle.std.specs.Option.{option_flatten, option_map, option_map_or};
ghost use Rattle.indexmap.specs.IndexMap.{spare};
ghost use Rattle.second_chance_cache.specs.SecondChance.{IsLeft, all_weight, asked, behind, has, has_room, is_for, is_kept, make_room, marked_at, told, unmarked, without};
ghost use Rattle.second_chance_cache.specs.Clock.{AreSound, FrontAnswers, IsForgotten, IsKept, IsNumbered, IsRenumbered, IsSieved, IsSound, KeepsRoom, HasRoom, SlotAnswers, dropped, emptied, entries_of, front_is_passed_by, live, looked_at, marked_in, number_in, place_of, turned, weight_at, with_front_unmarked};

use crate::bounds::CacheBounds;
use crate::kept::Kept;
use crate::key::{Key, KeyRef};
use indexmap::IndexMap;
use std::alloc::{AllocError, Global};
use std::collections::VecDeque;
use std::hash::BuildHasher;

/// Entries in the order in which the hand comes to them, and slots that are empty since their entries were taken out.
pub type Slots<V> = VecDeque<Option<Kept<V>>>;

/// The numbers of slots by key.
pub type Index<S> = IndexMap<Key, u64, S>;

/// Entries in slots, and how to find them: how many there are, and what they weigh together (octets).
#[derive(Drop)]
pub struct Clock<V, S: BuildHasher> {
    pub slots: Slots<V>,
    pub index: Index<S>,
    // The number of the first slot.
    pub first: u64,
    pub count: usize,
    pub octets: u64,
}

impl<V: Drop, S: BuildHasher> Clock<V, S> {
    // One without an entry.
    pub fn new(alloc: Global, hasher: S) -> Clock<V, S>
        ensures sound { IsSound result }
        ensures empty { live result.slots.items ≡ [] }
    {
        Clock {
            slots: VecDeque::new(alloc),
            index: IndexMap::with_hasher(alloc, hasher),
            first: 0,
            count: 0,
            octets: 0,
        }
    }

    // The place of the slot with this number.
    fn place(&self, number: u64) -> usize
        ensures { result ≡ (number + (2 ^ 64 - self.now.first)) % 2 ^ 64 }
    {
        number.wrapping_sub(self.first) as usize
    }

    // Where the entry of a key stands.
    fn place_of(&self, key: &[u8]) -> Option<usize>
        requires { IsSound self.now }
        ensures { result ≡ place_of key.now self.now.slots.items }
    {
        match self.index.get(&KeyRef::of(key)) {
            Some(number) => Some(self.place(*number)),
            None => None,
        }
    }

    // The entry that stands at a place, that of a key which is there.
    fn entry_of(&self, place: Option<usize>) -> Option<&Kept<V>>
        ensures { (key : List ℕ) → place ≡ place_of key self.now.slots.items
            → option_copied result ≡ find (is_for key) (live self.now.slots.items) }
    {
        match place {
            Some(place) => entry_at(&self.slots, place),
            None => None,
        }
    }

    // The first entry.
    pub fn first_entry(&self) -> Option<&Kept<V>>
        ensures { option_copied result ≡ slice_get (live self.now.slots.items) 0 }
    {
        match entry_at(&self.slots, 0) {
            Some(kept) => Some(kept),
            None => first_behind(&self.slots, 0),
        }
    }

    // The first entry behind that of a key.
    pub fn entry_behind(&self, key: &[u8]) -> Option<&Kept<V>>
        requires { IsSound self.now }
        ensures { option_copied result ≡ slice_get (behind key.now (live self.now.slots.items)) 0 }
    {
        match self.place_of(key) {
            Some(place) => first_behind(&self.slots, place),
            None => None,
        }
    }

    // The value that is told at a second of the key that is at a place.
    pub fn told_at(&self, place: Option<usize>, now: u64) -> Option<&V>
        ensures { (key : List ℕ) → place ≡ place_of key self.now.slots.items
            → option_copied result ≡ told key now (live self.now.slots.items) }
    {
        match self.entry_of(place) {
            Some(kept) => kept.told(now),
            None => None,
        }
    }

    // The value that is told for a key at a second.
    pub fn told(&self, key: &[u8], now: u64) -> Option<&V>
        requires { IsSound self.now }
        ensures { option_copied result ≡ told key.now now (live self.now.slots.items) }
    {
        self.told_at(self.place_of(key), now)
    }

    // A key is asked for at a second: its place.
    pub fn mark(&mut self, key: &[u8], now: u64) -> Option<usize>
        requires { IsSound self.old }
        ensures sound { IsSound self.new }
        ensures entries { live self.new.slots.items ≡ asked key.now now (live self.old.slots.items) }
        ensures place { result ≡ place_of key.now self.new.slots.items }
    {
        match self.place_of(key) {
            Some(place) => {
                mark_at(&mut self.slots, place, now);
                Some(place)
            }
            None => None,
        }
    }

    // ---- the hand

    // The first slot goes to the back, where it has an entry; an empty one goes.
    fn turn(&mut self)
        requires { IsSound self.old }
        ensures sound { IsSound self.new }
        ensures room { KeepsRoom self.old self.new }
        ensures slots { self.new.slots.items ≡ turned self.old.slots.items }
    {
        match self.slots.pop_front() {
            Some(Some(kept)) => self.put_back(kept),
            Some(None) => self.first = self.first.wrapping_add(1),
            None => {}
        }
    }

    // The first slot goes, with its entry, where it has one.
    fn drop_front(&mut self)
        requires { IsSound self.old }
        ensures sound { IsSound self.new }
        ensures room { KeepsRoom self.old self.new }
        ensures slots { self.new.slots.items ≡ dropped self.old.slots.items }
    {
        match self.slots.pop_front() {
            Some(Some(kept)) => self.let_go(&kept),
            Some(None) => self.first = self.first.wrapping_add(1),
            None => {}
        }
    }

    // The entry of the first slot, which is taken out, goes to the back.
    fn put_back(&mut self, kept: Kept<V>)
        requires sound { AreSound (λ key. number_in key self.old.index) (Some kept ∷ self.old.slots.items)
            self.old.first self.old.count self.old.octets }
        requires room { deque_len self.old.slots < deque_capacity self.old.slots }
        ensures sound { IsSound self.new }
        ensures slots { self.new.slots.items ≡ self.old.slots.items ++ Some kept ∷ [] }
        ensures len { deque_len self.new.slots ≡ deque_len self.old.slots + 1 }
        ensures capacity { deque_capacity self.new.slots ≡ deque_capacity self.old.slots }
        ensures index { spare self.new.index ≡ spare self.old.index }
    {
        self.first = self.first.wrapping_add(1);
        let number = self.first.wrapping_add(self.slots.len() as u64);
        renumber(&mut self.index, kept.key(), number);
        self.slots.push_back_reserved(Some(kept));
    }

    // The entry of the first slot, which is taken out, is there no more.
    fn let_go(&mut self, kept: &Kept<V>)
        requires { AreSound (λ key. number_in key self.old.index) (Some kept.now ∷ self.old.slots.items)
            self.old.first self.old.count self.old.octets }
        ensures sound { IsSound self.new }
        ensures slots { self.new.slots ≡ self.old.slots }
        ensures index { spare self.old.index ≤ spare self.new.index }
    {
        self.first = self.first.wrapping_add(1);
        forget(&mut self.index, kept.key());
        self.count -= 1;
        self.octets -= kept.weight();
    }

    fn unmark_front(&mut self)
        requires { IsSound self.old }
        ensures sound { IsSound self.new }
        ensures room { KeepsRoom self.old self.new }
        ensures slots { self.new.slots.items ≡ with_front_unmarked self.old.slots.items }
    {
        unmark_front(&mut self.slots);
    }

    // The hand looks at the first slot: it passes its entry by, or drops it.
    fn look(&mut self, now: u64)
        requires { IsSound self.old }
        ensures sound { IsSound self.new }
        ensures room { KeepsRoom self.old self.new }
        ensures slots { self.new.slots.items ≡ looked_at now self.old.slots.items }
    {
        if front_is_passed_by(&self.slots, now) {
            self.unmark_front();
            self.turn();
        } else {
            self.drop_front();
        }
    }

    fn has_room(&self, bounds: &CacheBounds, weight: u64) -> bool
        requires { IsSound self.now }
        ensures value { result ≡ has_room bounds.now weight (live self.now.slots.items) }
        ensures fits { (bounds.now.entries < 2 ^ 64) × (bounds.now.octets < 2 ^ 64) }
    {
        let (entries, octets) = (bounds.entries, bounds.octets);
        self.count < entries && weight <= octets && self.octets <= octets - weight
    }

    // The hand goes on until there is room for one more entry of this weight.
    fn make_room(&mut self, bounds: &CacheBounds, weight: u64, now: u64)
        requires sound { IsSound self.old }
        requires kept { is_kept bounds.now weight ≡ true }
        ensures sound { IsSound self.new }
        ensures room { KeepsRoom self.old self.new }
        ensures entries { live self.new.slots.items ≡ make_room bounds.now weight now (live self.old.slots.items) }
        ensures fits { (bounds.now.entries < 2 ^ 64) × (bounds.now.octets < 2 ^ 64) }
    {
        while !self.has_room(bounds, weight) {
            self.look(now);
        }
    }

    // ---- coming in and going out

    // Stores an entry that may be kept, in place of its key's. A refused call changes nothing that is seen.
    pub fn store(
        &mut self,
        alloc: Global,
        bounds: &CacheBounds,
        kept: Kept<V>,
        now: u64,
    ) -> Result<(), AllocError>
        requires kept { IsKept bounds.now self.old }
        requires light { is_kept bounds.now kept.weight ≡ true }
        ensures kept { IsKept bounds.now self.new }
        ensures ok { OnOk result (entries_of self.new
            ≡ make_room bounds.now kept.weight now (without kept.key (entries_of self.old)) ++ kept ∷ []) }
        ensures err { OnErr result (entries_of self.new ≡ entries_of self.old) }
    {
        match self.reserve_for(alloc, kept.key()) {
            Ok(key) => {
                self.put(bounds, kept, key, now);
                Ok(())
            }
            Err(error) => Err(error),
        }
    }

    // Room for one more entry, and its key once more. A refused call changes nothing that is seen.
    fn reserve_for(&mut self, alloc: Global, key: &[u8]) -> Result<Key, AllocError>
        requires { IsSound self.old }
        ensures sound { IsSound self.new }
        ensures room { OnOk result (HasRoom self.new) }
        ensures slots { self.new.slots.items ≡ self.old.slots.items }
        ensures key { IfOk result (λ k. k ≡ key.now) }
    {
        let key = Key::of(alloc, key)?;
        self.reserve()?;
        Ok(key)
    }

    // An entry that may be kept comes in, where there is room in memory, in place of its key's.
    fn put(&mut self, bounds: &CacheBounds, kept: Kept<V>, key: Key, now: u64)
        requires kept { IsKept bounds.now self.old }
        requires light { is_kept bounds.now kept.weight ≡ true }
        requires room { HasRoom self.old }
        requires key { key ≡ kept.key }
        ensures kept { IsKept bounds.now self.new }
        ensures entries { entries_of self.new
            ≡ make_room bounds.now kept.weight now (without kept.key (entries_of self.old)) ++ kept ∷ [] }
    {
        self.take_out(kept.key());
        self.make_room(bounds, kept.weight(), now);
        self.push(kept, key);
    }

    // Takes the entry of a key out.
    pub fn take_out(&mut self, key: &[u8])
        requires { IsSound self.old }
        ensures sound { IsSound self.new }
        ensures room { KeepsRoom self.old self.new }
        ensures entries { live self.new.slots.items ≡ without key.now (live self.old.slots.items) }
    {
        self.empty_slot(key);
        self.sweep();
    }

    // The slot of a key is empty from now on.
    fn empty_slot(&mut self, key: &[u8])
        requires { IsSound self.old }
        ensures sound { IsSound self.new }
        ensures room { KeepsRoom self.old self.new }
        ensures entries { live self.new.slots.items ≡ without key.now (live self.old.slots.items) }
    {
        match self.place_of(key) {
            Some(place) => self.empty_place(place, key),
            None => {}
        }
    }

    // The slot of a key, which is at this place, is empty from now on.
    fn empty_place(&mut self, place: usize, key: &[u8])
        requires sound { IsSound self.old }
        requires place { place_of key.now self.old.slots.items ≡ Some place }
        ensures sound { IsSound self.new }
        ensures room { KeepsRoom self.old self.new }
        ensures entries { live self.new.slots.items ≡ without key.now (live self.old.slots.items) }
    {
        forget(&mut self.index, key);
        let weight = empty_at(&mut self.slots, place);
        self.count -= 1;
        self.octets -= weight;
    }

    // Lets the empty slots go, where they are more than the entries.
    fn sweep(&mut self)
        requires { IsSound self.old }
        ensures sound { IsSound self.new }
        ensures room { KeepsRoom self.old self.new }
        ensures entries { live self.new.slots.items ≡ live self.old.slots.items }
    {
        if self.slots.len() / 2 > self.count {
            self.turn_all();
        }
    }

    // Turns each slot once, so that no empty one is left.
    fn turn_all(&mut self)
        requires { IsSound self.old }
        ensures sound { IsSound self.new }
        ensures room { KeepsRoom self.old self.new }
        ensures entries { live self.new.slots.items ≡ live self.old.slots.items }
    {
        let mut left = self.slots.len();
        while left > 0 {
            self.turn();
            left -= 1;
        }
    }

    // Takes the entries out whose keys pass a test.
    pub fn remove_where<F: Fn(&[u8]) -> bool>(&mut self, is_gone: &F)
        requires sound { IsSound self.old }
        requires test { F.IsAlwaysCallable is_gone.now }
        ensures sound { IsSound self.new }
        ensures left { IsLeft (FnReturnsAt F.Fn is_gone.now) (entries_of self.old) (entries_of self.new) }
    {
        let mut unseen = self.slots.len();
        while unseen > 0 {
            self.sieve_front(is_gone);
            unseen -= 1;
        }
    }

    // The first slot goes where its key passes, or is empty, and else to the back.
    fn sieve_front<F: Fn(&[u8]) -> bool>(&mut self, is_gone: &F)
        requires sound { IsSound self.old }
        requires test { F.IsAlwaysCallable is_gone.now }
        ensures sound { IsSound self.new }
        ensures slots { IsSieved (FnReturnsAt F.Fn is_gone.now) self.old.slots.items self.new.slots.items }
    {
        if front_is_gone(&self.slots, is_gone) {
            self.drop_front();
        } else {
            self.turn();
        }
    }

    // Room for one more entry. A refused call changes nothing that is seen.
    fn reserve(&mut self) -> Result<(), AllocError>
        requires { IsSound self.old }
        ensures sound { IsSound self.new }
        ensures room { OnOk result (HasRoom self.new) }
        ensures slots { self.new.slots.items ≡ self.old.slots.items }
    {
        self.slots.reserve(1)?;
        self.index.reserve(1)
    }

    // An entry comes in at the back, under its key.
    fn push(&mut self, kept: Kept<V>, key: Key)
        requires sound { IsSound self.old }
        requires room { HasRoom self.old }
        requires key { key ≡ kept.key }
        requires new { has kept.key (live self.old.slots.items) ≡ false }
        requires count { length (live self.old.slots.items) + 1 < 2 ^ 64 }
        requires octets { all_weight (live self.old.slots.items) + kept.weight < 2 ^ 64 }
        ensures sound { IsSound self.new }
        ensures entries { live self.new.slots.items ≡ live self.old.slots.items ++ kept ∷ [] }
    {
        let number = self.first.wrapping_add(self.slots.len() as u64);
        self.count += 1;
        self.octets += kept.weight();
        self.slots.push_back_reserved(Some(kept));
        number_key(&mut self.index, key, number);
    }

    // All entries go.
    pub fn clear(&mut self)
        ensures sound { IsSound self.new }
        ensures empty { live self.new.slots.items ≡ [] }
    {
        self.slots.clear();
        self.index.clear();
        self.first = 0;
        self.count = 0;
        self.octets = 0;
    }
}

// ---- slots

fn entry_at<V>(slots: &Slots<V>, place: usize) -> Option<&Kept<V>>
    ensures { option_copied result ≡ option_flatten (slice_get slots.now.items place) }
{
    match slots.get(place) {
        Some(Some(kept)) => Some(kept),
        _ => None,
    }
}

// The first entry behind a place.
fn first_behind<V>(slots: &Slots<V>, start: usize) -> Option<&Kept<V>>
    ensures { option_copied result ≡ slice_get (live (drop (start + 1) slots.now.items)) 0 }
{
    let mut place = start;
    while place < slots.len() {
        place += 1;
        match entry_at(slots, place) {
            Some(kept) => return Some(kept),
            None => {}
        }
    }
    None
}

fn mark_at<V>(slots: &mut Slots<V>, place: usize, now: u64)
    ensures { slots.new.items ≡ marked_in place now slots.old.items }
{
    match slots.get_mut(place) {
        Some(slot) => mark_slot(slot, now),
        None => {}
    }
}

fn mark_slot<V>(slot: &mut Option<Kept<V>>, now: u64)
    ensures { slot.new ≡ option_map (marked_at now) slot.old }
{
    match slot {
        Some(kept) => kept.mark(now),
        None => {}
    }
}

// The slot is empty from now on: what its entry weighs.
fn empty_at<V: Drop>(slots: &mut Slots<V>, place: usize) -> u64
    ensures weight { result ≡ weight_at place slots.old.items }
    ensures items { slots.new.items ≡ emptied place slots.old.items }
    ensures len { deque_len slots.new ≡ deque_len slots.old }
    ensures capacity { deque_capacity slots.new ≡ deque_capacity slots.old }
{
    match slots.get_mut(place) {
        Some(slot) => weight_of(slot.take()),
        None => 0,
    }
}

fn weight_of<V: Drop>(kept: Option<Kept<V>>) -> u64
    ensures { result ≡ option_map_or (λ e. e.weight) kept 0 }
{
    match kept {
        Some(kept) => kept.weight,
        None => 0,
    }
}

fn front_is_passed_by<V>(slots: &Slots<V>, now: u64) -> bool
    ensures { result ≡ front_is_passed_by now slots.now.items }
{
    match slots.front() {
        Some(Some(kept)) => kept.is_passed_by(now),
        _ => false,
    }
}

fn unmark_front<V>(slots: &mut Slots<V>)
    ensures items { slots.new.items ≡ with_front_unmarked slots.old.items }
    ensures len { deque_len slots.new ≡ deque_len slots.old }
    ensures capacity { deque_capacity slots.new ≡ deque_capacity slots.old }
{
    match slots.front_mut() {
        Some(slot) => unmark_slot(slot),
        None => {}
    }
}

fn unmark_slot<V>(slot: &mut Option<Kept<V>>)
    ensures { slot.new ≡ option_map unmarked slot.old }
{
    match slot {
        Some(kept) => kept.unmark(),
        None => {}
    }
}

// Whether the key of the first slot passes a test.
fn front_is_gone<V, F: Fn(&[u8]) -> bool>(slots: &Slots<V>, is_gone: &F) -> bool
    requires { F.IsAlwaysCallable is_gone.now }
    ensures { FrontAnswers (FnReturnsAt F.Fn is_gone.now) slots.now.items result }
{
    match slots.front() {
        Some(slot) => slot_is_gone(slot, is_gone),
        None => false,
    }
}

fn slot_is_gone<V, F: Fn(&[u8]) -> bool>(slot: &Option<Kept<V>>, is_gone: &F) -> bool
    requires { F.IsAlwaysCallable is_gone.now }
    ensures { SlotAnswers (FnReturnsAt F.Fn is_gone.now) slot.now result }
{
    match slot {
        Some(kept) => is_gone(kept.key()),
        None => false,
    }
}

// ---- numbers

// The slot of a key has another number.
fn renumber<S: BuildHasher>(index: &mut Index<S>, key: &[u8], number: u64)
    ensures numbers { IsRenumbered key.now number index.old index.new }
    ensures room { spare index.new ≡ spare index.old }
{
    match index.get_mut(&KeyRef::of(key)) {
        Some(held) => *held = number,
        None => {}
    }
}

// A key has no number any more.
fn forget<S: BuildHasher>(index: &mut Index<S>, key: &[u8])
    ensures numbers { IsForgotten key.now index.old index.new }
    ensures room { spare index.old ≤ spare index.new }
{
    index.swap_remove(&KeyRef::of(key));
}

// A key has this number, where there is room for one more.
fn number_key<S: BuildHasher>(index: &mut Index<S>, key: Key, number: u64)
    requires { 0 < spare index.old }
    ensures { IsNumbered key number index.old index.new }
{
    drop(index.insert(key, number));
}

//! The questions that are looked up for clients.
ghost use Rattle.std.specs.Prelude.{◌≡◌, ◌<◌, ◌++◌, ◌∷◌, [], length, option_copied, slice_get, IfNone, OnErr, OnOk};
ghost use Rattle.indexmap.specs.IndexMap.{spare};
ghost use Rattle.yimarotu_forwarder.specs.FetchTables.{HasRoom, HasTurn, fetches_of};
ghost use Rattle.yimarotu_forwarder.specs.Fetches.{Begins, ChangesFetch, Ends, asked_for, fetch_at, first_asked, no_fetches, with_asker, with_waiting, without_asker};

use crate::fetch::Fetch;
use client_requests::{ReplyKey, WaitingRequest};
use indexmap::IndexMap;
use std::alloc::{AllocError, Global};
use std::collections::VecDeque;
use std::hash::RandomState;

// The fetches by key; the askers of the pool, each with the key of the fetch that it asks for; and the keys of those
// that have a question to ask, first come first.
#[derive(Drop)]
pub(crate) struct Fetches {
    pub(crate) fetches: IndexMap<ReplyKey, Fetch, RandomState>,
    pub(crate) askers: IndexMap<u64, ReplyKey>,
    pub(crate) to_ask: VecDeque<ReplyKey>,
}

impl Fetches {
    // None yet. The hasher is for questions, which come from strangers.
    pub(crate) fn new(alloc: Global, hasher: RandomState) -> Fetches
        ensures { fetches_of result ≡ no_fetches }
    {
        Fetches {
            fetches: IndexMap::with_hasher(alloc, hasher),
            askers: IndexMap::new(alloc),
            to_ask: VecDeque::new(alloc),
        }
    }

    // ---- room

    // Room for one more fetch, and for one more asker.
    pub(crate) fn reserve(&mut self) -> Result<(), AllocError>
        ensures same { fetches_of self.new ≡ fetches_of self.old }
        ensures room { OnOk result (HasRoom self.new) }
    {
        self.fetches.reserve(1)?;
        self.askers.reserve(1)
    }

    // Room for one more that has a question to ask.
    pub(crate) fn reserve_turn(&mut self) -> Result<(), AllocError>
        ensures same { fetches_of self.new ≡ fetches_of self.old }
        ensures room { OnOk result (HasTurn self.new) }
    {
        self.to_ask.reserve(1)
    }

    // ---- fetches

    // How many questions are looked up.
    pub(crate) fn number(&self) -> usize
        ensures { result ≡ length (fetches_of self.now).fetches }
    {
        self.fetches.len()
    }

    pub(crate) fn get(&self, key: &ReplyKey) -> Option<&Fetch>
        ensures { option_copied result ≡ fetch_at key.now (fetches_of self.now) }
    {
        self.fetches.get(key)
    }

    // One more waits for a key. A refused call changes nothing.
    pub(crate) fn join(&mut self, key: &ReplyKey, waiting: WaitingRequest) -> Result<(), AllocError>
        ensures ok { OnOk result
            (ChangesFetch key.now (with_waiting waiting) (fetches_of self.old) (fetches_of self.new)) }
        ensures err { OnErr result (fetches_of self.new ≡ fetches_of self.old) }
    {
        match self.fetches.get_mut(key) {
            Some(fetch) => fetch.push(waiting),
            None => Ok(()),
        }
    }

    // A fetch begins, for which this asker asks.
    pub(crate) fn begin(&mut self, key: ReplyKey, fetch: Fetch, asker: u64)
        requires { HasRoom self.old }
        ensures { Begins key fetch asker (fetches_of self.old) (fetches_of self.new) }
    {
        drop(self.askers.insert(asker, key.copied()));
        drop(self.fetches.insert(key, fetch));
    }

    // A fetch is over.
    pub(crate) fn remove(&mut self, key: &ReplyKey) -> Option<Fetch>
        ensures taken { result ≡ fetch_at key.now (fetches_of self.old) }
        ensures ends { Ends key.now (fetches_of self.old) (fetches_of self.new) }
        ensures none { IfNone result (fetches_of self.new ≡ fetches_of self.old) }
    {
        self.fetches.swap_remove(key)
    }

    // ---- askers

    // Room for one more asker.
    pub(crate) fn reserve_asker(&mut self) -> Result<(), AllocError>
        ensures same { fetches_of self.new ≡ fetches_of self.old }
        ensures room { OnOk result (0 < spare self.new.askers) }
    {
        self.askers.reserve(1)
    }

    // An asker asks for the fetch of a key.
    pub(crate) fn insert_asker(&mut self, asker: u64, key: ReplyKey)
        requires { 0 < spare self.old.askers }
        ensures { fetches_of self.new ≡ with_asker asker key (fetches_of self.old) }
    {
        drop(self.askers.insert(asker, key));
    }

    // The key of the fetch that an asker asks for.
    pub(crate) fn asked_for(&self, asker: u64) -> Option<ReplyKey>
        ensures { result ≡ asked_for asker (fetches_of self.now) }
    {
        match self.askers.get(&asker) {
            Some(key) => Some(key.copied()),
            None => None,
        }
    }

    pub(crate) fn remove_asker(&mut self, asker: u64)
        ensures same { fetches_of self.new ≡ without_asker asker (fetches_of self.old) }
        ensures turn { HasTurn self.old → HasTurn self.new }
    {
        self.askers.swap_remove(&asker);
    }

    // ---- turns

    pub(crate) fn first_to_ask(&self) -> Option<ReplyKey>
        ensures { result ≡ slice_get (fetches_of self.now).to_ask 0 }
    {
        match self.to_ask.front() {
            Some(key) => Some(key.copied()),
            None => None,
        }
    }

    pub(crate) fn push_to_ask(&mut self, key: ReplyKey)
        requires { HasTurn self.old }
        ensures { fetches_of self.new ≡ record (fetches_of self.old) { to_ask = self.old.to_ask.items ++ key ∷ [] } }
    {
        self.to_ask.push_back_reserved(key);
    }

    pub(crate) fn pop_to_ask(&mut self)
        ensures popped { fetches_of self.new ≡ first_asked (fetches_of self.old) }
        ensures room { 0 < spare self.old.askers → 0 < spare self.new.askers }
    {
        self.to_ask.pop_front();
    }
}

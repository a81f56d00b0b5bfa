//! A transaction, its rounds, and what is sent next.
ghost use Rattle.std.specs.Prelude.{◌≡◌, [], ◌<◌, ◌+◌, IfOk, OnOk, OnErr, Some};
ghost use Rattle.hickory_resolver_transactions.specs.Transaction.{begun_with, candidates_of, replacing, putting, is_idle, may_go_on, wants_round, places_left, with_round, may_send, next_of, chosen, wanted, try_to_send, sent, unsent, has_late};

use crate::candidate::{Candidate, LateTry, Made, Try, Way};
use crate::changed::{replace, requeue_each};
use crate::outcome::Outcome;
use crate::picked::{any_busy, any_failed, any_tried, candidates_of, next_of, waiting_count};
use crate::settings::Settings;
use hickory_resolver_servers::Server;
use std::alloc::{AllocError, Global};
use std::marker::Model;

/// A try that is to be made next.
#[derive(Clone, Copy, Debug, PartialEq, Eq)]
pub struct Wanted {
    /// The place of the server.
    pub place: usize,
    /// How.
    pub way: Way,
}

/// A question on its way to the servers of a group. It is begun without a round: `wants_round` says when one is to
/// begin, `wanted` what is to be sent, `next_deadline` up to when it waits, and `outcome` what it came to. It holds no
/// message: a reply is named by a number of the caller's.
#[derive(Debug, Drop)]
pub struct Transaction {
    pub(crate) settings: Settings,
    pub(crate) candidates: Vec<Candidate>,
    pub(crate) order: Vec<usize>,
    pub(crate) late: Vec<LateTry>,
    pub(crate) round: usize,
    pub(crate) noted: Option<Outcome>,
    pub(crate) ended: Option<u64>,
}

impl Model for Transaction {
    ghost use Rattle.hickory_resolver_transactions.specs.Transaction.{TransactionState};

    ghost Value = { TransactionState };

    ghost view = { λ t. record {
      settings = t.settings;
      candidates = t.candidates.items;
      order = t.order.items;
      late = t.late.items;
      round = t.round;
      noted = t.noted;
      ended = t.ended;
    } };
}

impl Transaction {
    /// A transaction over these servers, as they are now.
    pub fn new(
        alloc: Global,
        settings: Settings,
        servers: &[Server],
    ) -> Result<Transaction, AllocError>
        ensures { IfOk result (λ t. t ≡ begun_with settings servers.now) }
    {
        Ok(Transaction {
            settings,
            candidates: candidates_of(alloc, servers)?,
            order: Vec::new(alloc),
            late: Vec::new(alloc),
            round: 0,
            noted: None,
            ended: None,
        })
    }

    // ---- rounds

    /// Whether a round is to begin.
    pub fn wants_round(&self) -> bool
        ensures { result ≡ wants_round self.now }
    {
        self.ended.is_none() && self.is_idle() && self.may_go_on()
    }

    /// The places of the servers that are left.
    pub fn places_left(&self, alloc: Global) -> Result<Vec<usize>, AllocError>
        ensures { IfOk result (λ v. v.items ≡ places_left self.now) }
    {
        self.candidates
            .iter()
            .filter(|one| one.progress.is_tried())
            .map(|one| one.place)
            .collect(alloc)
    }

    /// Begins a round in this order, where one is to begin. Servers that are left and not in it come last.
    pub fn begin_round(&mut self, order: Vec<usize>)
        ensures { self.new ≡ with_round order.items self.old }
    {
        if self.wants_round() {
            requeue_each(&mut self.candidates);
            self.order = order;
            self.round = next_round(self.round, self.settings.rounds);
        }
    }

    // Whether nothing of the round is still to come.
    pub(crate) fn is_idle(&self) -> bool
        ensures { result ≡ is_idle self.now }
    {
        !any_busy(&self.candidates) && !any_failed(&self.late)
    }

    // Whether servers are left, and rounds.
    pub(crate) fn may_go_on(&self) -> bool
        ensures { result ≡ may_go_on self.now }
    {
        self.round < self.settings.rounds && any_tried(&self.candidates)
    }

    // ---- what is sent

    /// What is to be sent next, if anything is. Its channel is opened, and `sent` told.
    pub fn wanted(&self) -> Option<Wanted>
        ensures { result ≡ wanted self.now }
    {
        match self.chosen() {
            Some(candidate) => Some(Wanted {
                place: candidate.place,
                way: candidate.way(),
            }),
            None => None,
        }
    }

    /// The try that goes as what is wanted, made so.
    pub fn try_to_send(&self, made: &Made) -> Option<Try>
        ensures { result ≡ try_to_send made.now self.now }
    {
        match self.chosen() {
            Some(candidate) => Some(made.make(&candidate, &self.settings)),
            None => None,
        }
    }

    /// What was wanted is sent so.
    pub fn sent(&mut self, made: &Made)
        ensures { self.new ≡ sent made.now self.old }
    {
        if let Some(candidate) = self.chosen() {
            replace(&mut self.candidates, &candidate.sent(made, &self.settings));
        }
    }

    /// There is no channel for what was wanted: it is not sent, and waits for one up to this moment, or as long as it
    /// did before.
    pub fn unsent(&mut self, due: u64)
        ensures { self.new ≡ unsent due self.old }
    {
        if let Some(candidate) = self.chosen() {
            replace(&mut self.candidates, &candidate.without_channel(due));
        }
    }

    /// Whether there are tries that are not waited for any more, and are believed still.
    pub fn has_late(&self) -> bool
        ensures { result ≡ has_late self.now }
    {
        !self.late.is_empty()
    }

    fn chosen(&self) -> Option<Candidate>
        ensures { result ≡ chosen self.now }
    {
        if self.may_send() { self.next() } else { None }
    }

    // What is asked again, and else what was not asked yet.
    fn next(&self) -> Option<Candidate>
        ensures { result ≡ next_of self.now }
    {
        next_of(&self.candidates, &self.order)
    }

    fn may_send(&self) -> bool
        ensures { result ≡ may_send self.now }
    {
        self.ended.is_none() && waiting_count(&self.candidates) < self.settings.concurrent
    }
}

fn next_round(round: usize, rounds: usize) -> usize
    requires { round < rounds }
    ensures { result ≡ round + 1 }
{
    round + 1
}

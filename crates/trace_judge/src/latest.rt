//! The latest moment of each question.
ghost use Rattle.std.specs.Prelude.{◌≡◌, [], IfOk, OnOk};
ghost use Rattle.trace_judge.specs.Index.{ForgetsMoments, Notes, is_since, latest_at, later};

use hickory_proto_core::Query;
use std::alloc::{AllocError, Global};
use std::collections::HashMap;
use std::marker::Model;

// How many questions there are before any are forgotten.
const FEW: usize = 1024;

/// The latest moment of each question, in milliseconds.
#[derive(Drop)]
pub struct LatestMoments {
    moments: HashMap<Query, u64>,
    // How many questions there are before any are forgotten.
    many: usize,
}

impl Model for LatestMoments {
    ghost use Rattle.std.specs.Prelude.{ℕ, List};
    ghost use Rattle.hickory_proto_core.specs.declared.query.Query.{Query};

    ghost Value = { List (Query × ℕ) };

    ghost view = { λ l. l.moments.entries };
}

impl LatestMoments {
    /// There is none yet.
    pub fn new(alloc: Global) -> LatestMoments
        ensures { result ≡ [] }
    {
        LatestMoments {
            moments: HashMap::new(alloc),
            many: FEW,
        }
    }

    /// The latest moment of a question.
    pub fn of(&self, query: &Query) -> Option<u64>
        ensures { result ≡ latest_at self.now query.now }
    {
        self.moments.get(query).copied()
    }

    /// One more moment of a question.
    pub fn note(&mut self, query: Query, moment: u64) -> Result<(), AllocError>
        ensures { OnOk result (Notes query moment self.old self.new) }
    {
        let latest = later(moment, self.of(&query));
        self.moments.insert(query, latest)?;
        Ok(())
    }

    /// Forgets moments before this one, where there have come to be many.
    pub fn forget(&mut self, moment: u64)
        ensures { ForgetsMoments moment self.old self.new }
    {
        if self.moments.len() < self.many {
            return;
        }
        drop_earlier(&mut self.moments, moment);
        self.many = FEW.saturating_add(self.moments.len().saturating_mul(2));
    }
}

fn drop_earlier(moments: &mut HashMap<Query, u64>, moment: u64)
    ensures { ForgetsMoments moment moments.old.entries moments.new.entries }
{
    moments.retain(|_, latest| moment <= *latest);
}

/// The later of a moment and another, where there is one.
pub fn later(moment: u64, other: Option<u64>) -> u64
    ensures { result ≡ later moment other }
{
    match other {
        Some(other) => other.max(moment),
        None => moment,
    }
}

/// Whether there is a moment, and it is this one or later.
pub fn is_since(moment: u64, other: Option<u64>) -> bool
    ensures { result ≡ is_since moment other }
{
    match other {
        Some(other) => moment <= other,
        None => false,
    }
}

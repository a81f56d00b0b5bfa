//! Questions that are open: asked, and not answered since as often.
ghost use Rattle.std.specs.Prelude.{◌≡◌, ◌+◌, ◌-◌, [], nat_lt, IfOk, OnOk};
ghost use Rattle.trace_judge.specs.Index.{Counts, count_at};

use hickory_proto_core::Query;
use std::alloc::{AllocError, Global};
use std::collections::HashMap;
use std::marker::Model;

/// How many times each question is open.
#[derive(Drop)]
pub struct OpenQuestions {
    counts: HashMap<Query, u64>,
}

impl Model for OpenQuestions {
    ghost use Rattle.std.specs.Prelude.{ℕ, List};
    ghost use Rattle.hickory_proto_core.specs.declared.query.Query.{Query};

    ghost Value = { List (Query × ℕ) };

    ghost view = { λ o. o.counts.entries };
}

impl OpenQuestions {
    /// No question is open.
    pub fn new(alloc: Global) -> OpenQuestions
        ensures { result ≡ [] }
    {
        OpenQuestions {
            counts: HashMap::new(alloc),
        }
    }

    /// How many times a question is open.
    pub fn of(&self, query: &Query) -> u64
        ensures { result ≡ count_at self.now query.now }
    {
        match self.counts.get(query) {
            Some(count) => *count,
            None => 0,
        }
    }

    /// A question is asked.
    pub fn ask(&mut self, query: Query) -> Result<(), AllocError>
        ensures { OnOk result (Counts query (count_at self.old query + 1) self.old self.new) }
    {
        let Some(count) = self.of(&query).checked_add(1) else {
            return Err(AllocError);
        };
        put(&mut self.counts, query, count)
    }

    /// A question is answered: whether it was open.
    pub fn answer(&mut self, query: Query) -> Result<bool, AllocError>
        ensures counted { OnOk result (Counts query (count_at self.old query - 1) self.old self.new) }
        ensures is_open { IfOk result (λ was_open. was_open ≡ nat_lt 0 (count_at self.old query)) }
    {
        let count = self.of(&query);
        put(&mut self.counts, query, count.saturating_sub(1))?;
        Ok(0 < count)
    }
}

// Puts a question's count in place of the one it had. One that is not open takes no room.
fn put(counts: &mut HashMap<Query, u64>, query: Query, count: u64) -> Result<(), AllocError>
    ensures { OnOk result (Counts query count counts.old.entries counts.new.entries) }
{
    if count == 0 {
        let _ = counts.remove(&query);
        return Ok(());
    }
    counts.insert(query, count)?;
    Ok(())
}

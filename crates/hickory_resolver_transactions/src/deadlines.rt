//! The earliest of the moments up to which a transaction waits.
ghost use Rattle.std.specs.Prelude.{◌≡◌};
ghost use Rattle.std.specs.List.{fold, filter_map};
ghost use Rattle.hickory_resolver_transactions.specs.Candidates.{due_of, late_due};
ghost use Rattle.hickory_resolver_transactions.specs.Transaction.{earlier};

use crate::candidate::{Candidate, LateTry};

fn earlier(first: Option<u64>, due: u64) -> Option<u64>
    ensures { result ≡ earlier first due }
{
    match first {
        None => Some(due),
        Some(other) => { if due < other { Some(due) } else { Some(other) } }
    }
}

pub(crate) fn earliest(first: Option<u64>, candidates: &[Candidate]) -> Option<u64>
    ensures { result ≡ fold earlier first (filter_map (λ c. due_of c.progress) candidates.now) }
{
    candidates
        .iter()
        .filter_map(|one| one.progress.due())
        .fold(first, |first, due| earlier(first, due))
}

pub(crate) fn earliest_late(first: Option<u64>, late: &[LateTry]) -> Option<u64>
    ensures { result ≡ fold earlier first (filter_map late_due late.now) }
{
    late.iter()
        .filter_map(|one| one.due())
        .fold(first, |first, due| earlier(first, due))
}

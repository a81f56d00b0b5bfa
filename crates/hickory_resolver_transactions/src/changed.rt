//! Servers of a transaction that are changed.
ghost use Rattle.std.specs.Prelude.{◌≡◌, map};
ghost use Rattle.hickory_resolver_transactions.specs.Candidates.{requeued};
ghost use Rattle.hickory_resolver_transactions.specs.Transaction.{replaced};

use crate::candidate::Candidate;

// A server in the place of the one with its place.
pub(crate) fn replace(candidates: &mut [Candidate], new: &Candidate)
    ensures { candidates.new ≡ replaced new.now candidates.old }
{
    for i in 0..candidates.len() {
        if candidates[i].place == new.place {
            candidates[i] = *new;
            return;
        }
    }
}

pub(crate) fn requeue_each(candidates: &mut [Candidate])
    ensures { candidates.new ≡ map requeued candidates.old }
{
    for one in candidates.iter_mut() {
        *one = one.requeued();
    }
}

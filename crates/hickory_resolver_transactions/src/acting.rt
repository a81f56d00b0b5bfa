//! The parts of what an event does with a transaction.
ghost use Rattle.std.specs.Prelude.{◌≡◌, ◌∷◌, [], OnOk, OnErr, None, if◌then◌else◌};
ghost use Rattle.hickory_resolver_transactions.specs.Candidates.{is_tried, is_waiting};
ghost use Rattle.hickory_resolver_transactions.specs.Outcomes.{better};
ghost use Rattle.hickory_resolver_transactions.specs.Transaction.{replaced, replacing, putting, noting, noted_of_closed, without_oldest, late_too, with_late, kept_in, keeping, acted, gone_unless_waiting, acted_late};

use crate::candidate::{Candidate, LateTry, Progress, Way};
use crate::changed::replace;
use crate::choices::LATE_TRIES;
use crate::outcome::{Outcome, better};
use crate::table::Then;
use crate::transaction::Transaction;
use std::alloc::AllocError;

impl Transaction {
    pub(crate) fn act(
        &mut self,
        what: Then,
        keeps: bool,
        candidate: &Candidate,
    ) -> Result<(), AllocError>
        ensures ok { OnOk result (self.new ≡ acted what keeps candidate.now self.old) }
        ensures err { OnErr result (self.new ≡ self.old) }
    {
        match what {
            Then::Ends(reply) => {
                self.ended = Some(reply);
                Ok(())
            }
            Then::Leaves(outcome) => {
                self.keep_if(keeps, candidate)?;
                self.leave(candidate, outcome);
                Ok(())
            }
            Then::Rests(outcome) => {
                self.keep_if(keeps, candidate)?;
                self.rest(candidate, outcome);
                Ok(())
            }
            Then::Again(way) => {
                self.keep_if(keeps, candidate)?;
                self.put(candidate, Progress::Again(way, None));
                Ok(())
            }
            Then::Nothing => Ok(()),
        }
    }

    pub(crate) fn act_late(&mut self, what: Then, candidate: &Candidate)
        ensures { self.new ≡ acted_late what candidate.now self.old }
    {
        match what {
            Then::Ends(reply) => self.ended = Some(reply),
            Then::Leaves(outcome) => self.leave_late(candidate, outcome),
            Then::Again(way) => self.ask_again(candidate, way),
            _ => {}
        }
    }

    fn ask_again(&mut self, candidate: &Candidate, way: Way)
        ensures { self.new ≡ (if is_tried candidate.now.progress
            then putting (Progress.Again way None) candidate.now self.old else self.old) }
    {
        if candidate.progress.is_tried() {
            self.put(candidate, Progress::Again(way, None));
        }
    }

    // A server leaves the transaction.
    fn leave(&mut self, candidate: &Candidate, outcome: Outcome)
        ensures { self.new ≡ noting outcome (putting Progress.Gone candidate.now self.old) }
    {
        self.put(candidate, Progress::Gone);
        self.note(outcome);
    }

    // The same by what came late, which ends no try that waits there.
    fn leave_late(&mut self, candidate: &Candidate, outcome: Outcome)
        ensures { self.new ≡ noting outcome (gone_unless_waiting candidate.now self.old) }
    {
        if !candidate.progress.is_waiting() {
            self.put(candidate, Progress::Gone);
        }
        self.note(outcome);
    }

    // A server has had its tries in this round.
    pub(crate) fn rest(&mut self, candidate: &Candidate, outcome: Outcome)
        ensures { self.new ≡ noting outcome (putting Progress.Tried candidate.now self.old) }
    {
        self.put(candidate, Progress::Tried);
        self.note(outcome);
    }

    pub(crate) fn put(&mut self, candidate: &Candidate, progress: Progress)
        ensures { self.new ≡ putting progress candidate.now self.old }
    {
        replace(&mut self.candidates, &candidate.with(progress));
    }

    pub(crate) fn note(&mut self, outcome: Outcome)
        ensures { self.new ≡ noting outcome self.old }
    {
        self.noted = better(self.noted, outcome);
    }

    fn keep_if(&mut self, keeps: bool, candidate: &Candidate) -> Result<(), AllocError>
        ensures ok { OnOk result (self.new ≡ keeping keeps candidate.now self.old) }
        ensures err { OnErr result (self.new ≡ self.old) }
    {
        match candidate.progress {
            Progress::Waiting(tried) if keeps => self.keep(&LateTry {
                place: candidate.place,
                tried,
                has_failed: false,
            }),
            _ => Ok(()),
        }
    }

    // One late try more, in place of the oldest where there are too many.
    pub(crate) fn keep(&mut self, late: &LateTry) -> Result<(), AllocError>
        ensures ok { OnOk result (self.new ≡ with_late late.now self.old) }
        ensures err { OnErr result (self.new ≡ self.old) }
    {
        let is_full = LATE_TRIES <= self.late.len();
        self.late.push(*late)?;
        if is_full {
            self.give_up_oldest();
        }
        Ok(())
    }

    /// The oldest late try is given up, where there is one.
    pub fn give_up_oldest(&mut self)
        ensures { self.new ≡ without_oldest self.old }
    {
        if self.has_late() {
            let oldest = self.late.remove(0);
            self.note_closed(&oldest);
        }
    }

    // A late try is given up.
    fn note_closed(&mut self, late: &LateTry)
        ensures { self.new ≡ record self.old { noted = noted_of_closed (late.now ∷ []) self.old.noted } }
    {
        if late.has_failed {
            self.note(Outcome::Unreachable);
        }
    }
}

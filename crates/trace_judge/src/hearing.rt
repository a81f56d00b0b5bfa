//! A judge that hears a trace line by line.
ghost use Rattle.std.specs.Prelude.{◌≡◌, ◌++◌, ◌∷◌, [], ℕ, List, map, IfOk, OnOk, MatchResult, ⊤};
ghost use Rattle.hickory_proto_core.specs.declared.query.Query.{Query};
ghost use Rattle.trace_judge.specs.Asks.{answered_by, asked_by};
ghost use Rattle.trace_judge.specs.Denials.{denial_of, denied_by, denied_in};
ghost use Rattle.trace_judge.specs.Evidence.{EvidenceValue};
ghost use Rattle.trace_judge.specs.Forgetting.{oldest};
ghost use Rattle.trace_judge.specs.Index.{GapsSee, SeesAs, Stands};
ghost use Rattle.trace_judge.specs.Judging.{CountsOpen, DeniesAs, ForgetsAll, Keeps, NotesAs, event_findings, findings_by, index_of};
ghost use Rattle.trace_judge.specs.Options.{OptionsValue};
ghost use Rattle.trace_judge.specs.Receptions.{reception_at, received_by, received_of};
ghost use Rattle.trace_judge.specs.Trace.{is_open_for, open_after};
ghost use Rattle.trace_judge.specs.declared.asks.Ask.{Ask};
ghost use Rattle.trace_judge.specs.declared.denials.Denial.{Denial};
ghost use Rattle.trace_judge.specs.declared.event.Event.{Event};
ghost use Rattle.trace_judge.specs.declared.receptions.Reception.{Reception};

use crate::classes::{Class, Finding, Place};
use crate::denials::{Denial, denied_by, last_name, negative_ttl};
use crate::denied::Denials;
use crate::event::{Event, Moment, Reply, Said, is_outcome};
use crate::evidence::Evidence;
use crate::gaps::Gaps;
use crate::latest::LatestMoments;
use crate::open::OpenQuestions;
use crate::options::Options;
use crate::receptions::{Reception, grace};
use crate::records::{find, judge_told};
use crate::sightings::Sightings;
use hickory_proto_core::Record;
use std::alloc::{AllocError, Global};
use std::marker::Model;

// How long what ran out is remembered, in milliseconds: a day.
const DAY: u64 = 86_400_000;

/// A judge that hears a trace line by line, and says at once what it finds in each.
#[derive(Drop)]
pub struct Judge {
    alloc: Global,
    options: Options,
    start: Option<Moment>,
    // The latest moment so far, in milliseconds.
    clock: u64,
    questions: OpenQuestions,
    seen: Sightings,
    gaps: Gaps,
    asked: LatestMoments,
    answered: LatestMoments,
    denied: Denials,
}

impl Model for Judge {
    ghost use Rattle.trace_judge.specs.Judging.{JudgeValue};

    ghost Value = { JudgeValue };

    ghost view = { λ j. record {
      options = j.options;
      start = j.start;
      clock = j.clock;
      open_counts = j.questions;
      seen = j.seen;
      gaps = j.gaps;
      asked = j.asked;
      answered = j.answered;
      denied = j.denied;
    } };
}

impl Judge {
    /// A judge that has heard nothing.
    pub fn new(alloc: Global, options: Options) -> Judge
        ensures { Keeps options [] result }
    {
        Judge {
            alloc,
            options,
            start: None,
            clock: 0,
            questions: OpenQuestions::new(alloc),
            seen: Sightings::new(alloc),
            gaps: Gaps::new(alloc),
            asked: LatestMoments::new(alloc),
            answered: LatestMoments::new(alloc),
            denied: Denials::new(alloc),
        }
    }

    /// Hears a line, and gives what is found in it: every class that holds, and no other. After an error the judge is
    /// of no further use.
    pub fn hear(&mut self, event: &Event) -> Result<Vec<Finding>, AllocError>
        ensures { (options : OptionsValue) (past : List Event) → Keeps options past self.old → MatchResult result
            (λ found. (found.items ≡ event_findings options past event.now) × Keeps options (event.now ∷ past) self.new)
            (λ _. ⊤) }
    {
        let now = event.moment;
        let said = &event.said;
        let clock = self.clock.max(now.in_milliseconds());
        let oldest = oldest_of(&self.options, clock);
        self.clock = clock;
        let counts = hear_open(&mut self.questions, said)?;
        let found = self.judge_said(now, oldest, counts, said)?;
        hear_asked(&mut self.asked, now, said)?;
        hear_answered(&mut self.answered, now, counts, said)?;
        hear_received(&mut self.seen, now, counts, said)?;
        hear_gaps(&mut self.gaps, now, counts, said)?;
        hear_denied(&mut self.denied, now, counts, said)?;
        self.start = Some(self.start.unwrap_or(now));
        self.forget(oldest);
        Ok(found)
    }

    // What is found in a line, with whether its question was open where it is received.
    fn judge_said(
        &self,
        now: Moment,
        oldest: u64,
        counts: bool,
        said: &Said,
    ) -> Result<Vec<Finding>, AllocError>
        ensures { (e : EvidenceValue) → Stands e (index_of self.now now oldest)
            → IfOk result (λ found. found.items ≡ findings_by counts e now said.now) }
    {
        let mut found = Vec::new(self.alloc);
        match said {
            Said::Asked(_) => {}
            Said::Received(_) => find(!counts, Place::Response, Class::Unasked, &mut found)?,
            Said::Told(reply) => {
                let evidence = Evidence {
                    alloc: self.alloc,
                    slack: self.options.slack,
                    oldest,
                    local: &self.options.local,
                    own: &self.options.own,
                    dns64: &self.options.dns64,
                    start: self.start.unwrap_or(now),
                    seen: &self.seen,
                    gaps: &self.gaps,
                    asked: &self.asked,
                    answered: &self.answered,
                    denied: &self.denied,
                };
                judge_told(&evidence, now, reply, &mut found)?;
            }
        }
        Ok(found)
    }

    // Forgets what ran out before a moment, in milliseconds.
    fn forget(&mut self, oldest: u64)
        ensures { ForgetsAll oldest self.old self.new }
    {
        self.seen.forget(oldest);
        self.gaps.forget(oldest);
        self.asked.forget(oldest);
        self.answered.forget(oldest);
        self.denied.forget(oldest);
    }
}

// The moment before which all is forgotten, where this is the latest one; both in milliseconds.
fn oldest_of(options: &Options, latest: u64) -> u64
    ensures { result ≡ oldest options.now.slack latest }
{
    latest.saturating_sub(grace(options.slack) + DAY)
}

// Opens or answers a question: whether it was open where it is answered.
fn hear_open(questions: &mut OpenQuestions, said: &Said) -> Result<bool, AllocError>
    ensures is_open { (before : List Query) → CountsOpen questions.old before
        → OnOk result (CountsOpen questions.new (open_after said.now before)) }
    ensures counts { (before : List Query) → CountsOpen questions.old before
        → IfOk result (λ counts. counts ≡ is_open_for said.now before) }
{
    match said {
        Said::Asked(query) => {
            questions.ask(Clone::clone(query)?)?;
            Ok(false)
        }
        Said::Received(reply) => questions.answer(Clone::clone(&reply.query)?),
        Said::Told(_) => Ok(false),
    }
}

fn hear_asked(asked: &mut LatestMoments, now: Moment, said: &Said) -> Result<(), AllocError>
    ensures { (from : ℕ) (before : List Ask) → NotesAs from asked.old before
        → OnOk result (NotesAs from asked.new (before ++ asked_by now said.now)) }
{
    match said {
        Said::Asked(query) => asked.note(Clone::clone(query)?, now.in_milliseconds()),
        Said::Received(_) | Said::Told(_) => Ok(()),
    }
}

fn hear_answered(
    answered: &mut LatestMoments,
    now: Moment,
    counts: bool,
    said: &Said,
) -> Result<(), AllocError>
    ensures { (from : ℕ) (before : List Ask) → NotesAs from answered.old before
        → OnOk result (NotesAs from answered.new (before ++ answered_by counts now said.now)) }
{
    match said {
        Said::Received(reply) if counts && is_outcome(reply.code) => {
            answered.note(Clone::clone(&reply.query)?, now.in_milliseconds())
        }
        _ => Ok(()),
    }
}

// Keeps the records of a response that counts and has an outcome.
fn hear_received(
    seen: &mut Sightings,
    now: Moment,
    counts: bool,
    said: &Said,
) -> Result<(), AllocError>
    ensures { (from : ℕ) (before : List Reception) → SeesAs from seen.old before
        → OnOk result (SeesAs from seen.new (before ++ received_by counts now said.now)) }
{
    match said {
        Said::Received(reply) if counts && is_outcome(reply.code) => keep_records(seen, now, reply),
        _ => Ok(()),
    }
}

fn keep_records(seen: &mut Sightings, now: Moment, reply: &Reply) -> Result<(), AllocError>
    ensures { (from : ℕ) (before : List Reception) → SeesAs from seen.old before
        → OnOk result (SeesAs from seen.new (before ++ received_of now reply.now)) }
{
    keep_section(seen, now, &reply.answers)?;
    keep_section(seen, now, &reply.authorities)?;
    keep_section(seen, now, &reply.additionals)
}

fn keep_section(seen: &mut Sightings, moment: Moment, records: &[Record]) -> Result<(), AllocError>
    ensures { (from : ℕ) (before : List Reception) → SeesAs from seen.old before
        → OnOk result (SeesAs from seen.new (before ++ map (reception_at moment) records.now)) }
{
    for r in records {
        let found = Clone::clone(r)?;
        seen.add(Reception { moment, found })?;
    }
    Ok(())
}

// Keeps those of its records that say what is not there.
fn hear_gaps(gaps: &mut Gaps, now: Moment, counts: bool, said: &Said) -> Result<(), AllocError>
    ensures { (from : ℕ) (before : List Reception) → GapsSee from gaps.old before
        → OnOk result (GapsSee from gaps.new (before ++ received_by counts now said.now)) }
{
    match said {
        Said::Received(reply) if counts && is_outcome(reply.code) => keep_gaps(gaps, now, reply),
        _ => Ok(()),
    }
}

fn keep_gaps(gaps: &mut Gaps, now: Moment, reply: &Reply) -> Result<(), AllocError>
    ensures { (from : ℕ) (before : List Reception) → GapsSee from gaps.old before
        → OnOk result (GapsSee from gaps.new (before ++ received_of now reply.now)) }
{
    keep_gaps_in(gaps, now, &reply.answers)?;
    keep_gaps_in(gaps, now, &reply.authorities)?;
    keep_gaps_in(gaps, now, &reply.additionals)
}

fn keep_gaps_in(gaps: &mut Gaps, moment: Moment, records: &[Record]) -> Result<(), AllocError>
    ensures { (from : ℕ) (before : List Reception) → GapsSee from gaps.old before
        → OnOk result (GapsSee from gaps.new (before ++ map (reception_at moment) records.now)) }
{
    for r in records {
        gaps.add(moment, r)?;
    }
    Ok(())
}

// Keeps the denial that a response is, where it counts.
fn hear_denied(
    denied: &mut Denials,
    now: Moment,
    counts: bool,
    said: &Said,
) -> Result<(), AllocError>
    ensures { (from : ℕ) (before : List Denial) → DeniesAs from denied.old before
        → OnOk result (DeniesAs from denied.new (before ++ denied_in counts now said.now)) }
{
    match said {
        Said::Received(reply) if counts => keep_denial(denied, now, reply),
        _ => Ok(()),
    }
}

fn keep_denial(denied: &mut Denials, moment: Moment, reply: &Reply) -> Result<(), AllocError>
    ensures { (from : ℕ) (before : List Denial) → DeniesAs from denied.old before
        → OnOk result (DeniesAs from denied.new (before ++ denial_of moment reply.now (denied_by reply.now))) }
{
    let Some(denies) = denied_by(reply) else {
        return Ok(());
    };
    let denial = Denial {
        moment,
        name: Clone::clone(last_name(&reply.query, &reply.answers))?,
        dns_class: reply.query.query_class,
        denied: denies,
        ttl: negative_ttl(&reply.authorities),
    };
    denied.add(&denial)
}

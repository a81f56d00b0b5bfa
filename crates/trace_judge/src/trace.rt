//! Whole traces.
ghost use Rattle.std.specs.Prelude.{◌≡◌, ◌++◌, map, IfOk, OnOk};
ghost use Rattle.trace_judge.specs.Traces.{findings_in, judged_at};

use crate::classes::Finding;
use crate::event::Event;
use crate::hearing::Judge;
use crate::options::Options;
use std::alloc::{AllocError, Global};

/// A finding, and the line that it is found in, counted from 0.
#[derive(Clone, Copy, Debug, PartialEq, Eq)]
pub struct Judged {
    pub event: usize,
    pub finding: Finding,
}

/// Judges a whole trace: every class that holds of what was told, in order, and no other.
pub fn judge(alloc: Global, trace: &[Event], options: Options) -> Result<Vec<Judged>, AllocError>
    ensures { IfOk result (λ found. found.items ≡ findings_in options trace.now) }
{
    let mut judge = Judge::new(alloc, options);
    let mut judged = Vec::new(alloc);
    for (i, event) in trace.iter().enumerate() {
        let found = judge.hear(event)?;
        note(&mut judged, i, &found)?;
    }
    Ok(judged)
}

fn note(judged: &mut Vec<Judged>, event: usize, found: &[Finding]) -> Result<(), AllocError>
    ensures { OnOk result (judged.new.items ≡ judged.old.items ++ map (judged_at event) found.now) }
{
    for finding in found {
        judged.push(Judged {
            event,
            finding: *finding,
        })?;
    }
    Ok(())
}

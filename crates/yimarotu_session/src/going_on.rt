//! A look-up that goes on.
ghost use Rattle.std.specs.Prelude.{◌≡◌};
ghost use Rattle.yimarotu_session.specs.Calls.{Resumed, waits_of};

use hickory_proto_core::{NetError, Outcome, ScriptHandle};
use hickory_resolver::{CallProgress, Resolver};
use std::mem;

// Whether a look-up waits.
pub(crate) fn waits(progress: &CallProgress) -> bool
    ensures { result ≡ waits_of progress.now }
{
    matches!(progress, CallProgress::Waiting(_))
}

// Goes on with a look-up that waits by what came back to its question. One that is done stays.
pub(crate) fn go_on(
    resolver: &mut Resolver<ScriptHandle>,
    held: &mut CallProgress,
    outcome: Outcome,
)
    ensures { Resumed outcome resolver.old held.old resolver.new held.new }
{
    let resumed = resumed(resolver, take(held), outcome);
    drop(mem::replace(held, resumed));
}

// A call leaves its place for as long as it is worked on. One that is done stands there meanwhile.
fn take(held: &mut CallProgress) -> CallProgress
    ensures { result ≡ held.old }
{
    mem::replace(held, CallProgress::Done(Err(NetError::NoOutcome)))
}

fn resumed(
    resolver: &mut Resolver<ScriptHandle>,
    progress: CallProgress,
    outcome: Outcome,
) -> CallProgress
    ensures { Resumed outcome resolver.old progress resolver.new result }
{
    match progress {
        CallProgress::Waiting(waiting) => resolver.resume(waiting, outcome),
        CallProgress::Done(found) => {
            drop(outcome);
            CallProgress::Done(found)
        }
    }
}

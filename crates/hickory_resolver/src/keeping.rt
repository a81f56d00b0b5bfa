//! Runs whose steps are kept.
ghost use Rattle.std.specs.Prelude.{◌≡◌, List, IfOk, OnErr, map};
ghost use Rattle.hickory_proto_core.specs.declared.recorded.Exchange.{Exchange};
ghost use Rattle.hickory_resolver_lookup.specs.Requests.{request_of};
ghost use Rattle.hickory_resolver.specs.Serving.{MakesRun};

use crate::listener::Listener;
use crate::resolver::Resolver;
use crate::serve::serve_each;
use crate::transcript::Step;
use hickory_proto_core::{DnsHandle, Exchange, Recorded};
use hickory_resolver_lookup::Request;
use std::alloc::{AllocError, Global};
use std::hash::BuildHasher;

// Keeps the steps that it hears of, as many as it has room for.
#[derive(Drop)]
struct StepKeeper {
    steps: Vec<Step>,
}

impl Listener for StepKeeper {
    ghost use Rattle.std.specs.Prelude.{◌≡◌, ◌≤◌, ◌+◌, ◌++◌, ◌∷◌, [], vec_capacity, vec_len};

    ghost hears = { λ before _ _ step after. (after.steps.items ≡ before.steps.items ++ step ∷ [])
        × (vec_len after.steps ≡ vec_len before.steps + 1)
        × (vec_capacity after.steps ≡ vec_capacity before.steps) };

    ghost fails = { λ before _ _ _ _. vec_capacity before.steps ≤ vec_len before.steps };

    fn hear(
        &mut self,
        _request: &Request,
        _sent: &[Exchange],
        step: Step,
    ) -> Result<(), AllocError> {
        if self.steps.len() >= self.steps.capacity() {
            drop(step);
            return Err(AllocError);
        }
        self.steps.push_reserved(step);
        Ok(())
    }
}

// Serves requests in order, up to one that finds no memory, and keeps their steps, in room that is taken before. Where
// there is none, nothing was asked.
pub fn keep_steps<H: DnsHandle, S: BuildHasher>(
    alloc: Global,
    resolver: &mut Resolver<Recorded<H>, S>,
    requests: &[Request],
) -> Result<Vec<Step>, AllocError>
    ensures ok { IfOk result (λ steps. (exchanges : List Exchange)
        × MakesRun H.step resolver.old (map request_of requests.now) steps.items exchanges resolver.new) }
    ensures err { OnErr result (resolver.new ≡ resolver.old) }
{
    let steps = Vec::with_capacity(alloc, requests.len())?;
    let mut keeper = StepKeeper { steps };
    serve_each(resolver, &mut keeper, requests)?;
    Ok(keeper.steps)
}

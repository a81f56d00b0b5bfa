//! Requests that are served one by one, over a handle that keeps what it sends and what came back; a listener hears of each.
ghost use Rattle.std.specs.Prelude.{List, OnErr, OnOk, map};
ghost use Rattle.hickory_proto_core.specs.declared.recorded.Exchange.{Exchange};
ghost use Rattle.hickory_resolver_model.specs.Run.{StepValue};
ghost use Rattle.hickory_resolver_lookup.specs.Requests.{request_of};
ghost use Rattle.hickory_resolver.specs.Listening.{HearsAll};
ghost use Rattle.hickory_resolver.specs.Serving.{FailsToHear, MakesRun};

use crate::listener::Listener;
use crate::resolver::Resolver;
use crate::serves::{answer_by, upstream_of};
use crate::transcript::Step;
use hickory_proto_core::{DnsHandle, Recorded};
use hickory_resolver_lookup::Request;
use std::alloc::AllocError;
use std::hash::BuildHasher;

// Serves requests in order, up to one that finds no memory, and lets a listener hear of each. Its error ends the run.
pub fn serve_each<H: DnsHandle, S: BuildHasher, L: Listener>(
    resolver: &mut Resolver<Recorded<H>, S>,
    listener: &mut L,
    requests: &[Request],
) -> Result<(), AllocError>
    ensures ok { OnOk result ((steps : List StepValue) × (exchanges : List Exchange)
        × MakesRun H.step resolver.old (map request_of requests.now) steps exchanges resolver.new
        × HearsAll L.hears listener.old (map request_of requests.now) steps exchanges listener.new) }
    ensures err { OnErr result (FailsToHear L.hears L.fails listener.old (map request_of requests.now) listener.new) }
{
    for request in requests {
        let before = upstream_of(resolver).exchanges().len();
        let reply = answer_by(resolver, request);
        let is_last = reply.ends_run();
        let sent = &upstream_of(resolver).exchanges()[before..];
        let step = Step {
            now: request.moment(),
            exchanges: sent.len(),
            reply,
        };
        listener.hear(request, sent, step)?;
        if is_last {
            return Ok(());
        }
    }
    Ok(())
}

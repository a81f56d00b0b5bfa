//! Who hears of the steps of a run as they are made.
ghost use Rattle.std.specs.Prelude.{OnErr, OnOk};
ghost use Rattle.hickory_resolver_lookup.specs.Requests.{request_of};

use crate::resolver::Resolver;
use crate::transcript::Step;
use hickory_proto_core::{DnsHandle, Exchange};
use hickory_resolver_lookup::Request;
use std::alloc::AllocError;
use std::hash::BuildHasher;

/// Who hears of each step of a run when it is made. So a run need not keep its steps. Each kind of listener states by
/// the relation `hears` what stands after it has heard, and by `fails` where it may fail, and what stands then; where
/// it states no `fails`, it may always fail.
pub trait Listener {
    ghost use Rattle.std.specs.Prelude.{List};
    ghost use Rattle.hickory_proto_core.specs.declared.recorded.Exchange.{Exchange};
    ghost use Rattle.hickory_resolver_model.specs.Run.{RequestValue, StepValue};

    ghost hears: { Self → RequestValue → List Exchange → StepValue → Self → Type 0 };

    ghost fails: { Self → RequestValue → List Exchange → StepValue → Self → Type 0 } = { λ _ _ _ _ _. Unit {0} };

    /// Hears of a request, of the questions that were sent for it and what came back, and of its step. An error
    /// ends the run.
    fn hear(&mut self, request: &Request, sent: &[Exchange], step: Step) -> Result<(), AllocError>
        ensures ok { OnOk result (hears self.old (request_of request.now) sent.now step self.new) }
        ensures err { OnErr result (fails self.old (request_of request.now) sent.now step self.new) };
}

/// What a run that was told came to: the resolver after the last step, and who heard of all of them.
#[derive(Drop)]
pub struct Heard<R: DnsHandle, S: BuildHasher, L> {
    pub resolver: Resolver<R, S>,
    pub listener: L,
}

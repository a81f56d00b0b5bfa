//! What a run comes to: its steps, and the resolver after it.
ghost use Rattle.std.specs.Prelude.{◌≡◌};
ghost use Rattle.hickory_resolver_model.specs.Run.{ends_run};
ghost use Rattle.hickory_resolver.specs.Replies.{reply_of};

use crate::resolver::Resolver;
use crate::serves::upstream_of;
use hickory_proto_core::{DnsHandle, Exchange, NetError, Recorded};
use hickory_resolver_lookup::{Lookup, LookupIp};
use std::hash::{BuildHasher, BuildHasherDefault, FoldHasher};
use std::marker::Model;

/// What a request is answered.
#[derive(Drop)]
pub enum Reply {
    /// What a look-up of records came to.
    Lookup(Result<Lookup, NetError>),
    /// What a look-up of addresses came to.
    LookupIp(Result<LookupIp, NetError>),
    /// Whether a clear was done.
    Cleared(Result<(), NetError>),
}

impl Reply {
    /// Whether memory ran out, so that the run ended with it.
    pub fn ends_run(&self) -> bool
        ensures { result ≡ ends_run (reply_of self.now) }
    {
        match self {
            Reply::Lookup(reply) => matches!(reply, Err(NetError::OutOfMemory)),
            Reply::LookupIp(reply) => matches!(reply, Err(NetError::OutOfMemory)),
            Reply::Cleared(done) => matches!(done, Err(_)),
        }
    }
}

/// What one request of a run came to.
#[derive(Drop)]
pub struct Step {
    /// The moment of the request, in seconds.
    pub now: u64,
    /// How many questions were sent for it: those of its look-ups, as the handle kept them.
    pub exchanges: usize,
    /// What it is answered.
    pub reply: Reply,
}

impl Model for Step {
    ghost use Rattle.hickory_resolver_model.specs.Run.{StepValue};
    ghost use Rattle.hickory_resolver.specs.Replies.{reply_of};

    ghost Value = { StepValue };

    ghost view = { λ s. record { now = s.now; exchanges = s.exchanges; reply = reply_of s.reply } };
}

/// What a run came to: a step for each request that was served, in order, and the resolver after the last one.
/// To let go of it call `into_resolver`, and drop what that gives: a program that drops the whole is not proved.
#[derive(Drop)]
pub struct Transcript<H: DnsHandle, S: BuildHasher = BuildHasherDefault<FoldHasher>> {
    steps: Vec<Step>,
    resolver: Resolver<Recorded<H>, S>,
}

impl<H: DnsHandle, S: BuildHasher> Model for Transcript<H, S> {
    ghost use Rattle.hickory_resolver.specs.Transcripts.{TranscriptValue};

    ghost Value = { TranscriptValue H };

    ghost view = { λ t. record { steps = t.steps.items; resolver = t.resolver } };
}

impl<H: DnsHandle, S: BuildHasher> Transcript<H, S> {
    pub(crate) fn new(steps: Vec<Step>, resolver: Resolver<Recorded<H>, S>) -> Transcript<H, S>
        ensures { result ≡ record { steps = steps.items; resolver = resolver } }
    {
        Transcript { steps, resolver }
    }

    /// The steps, in the order of the requests.
    pub fn steps(&self) -> &[Step]
        ensures { result.now ≡ self.now.steps }
    {
        &self.steps
    }

    /// The questions that were sent and what came back, of all steps, in order.
    pub fn exchanges(&self) -> &[Exchange]
        ensures { result.now ≡ self.now.resolver.client.handle.exchanges }
    {
        upstream_of(&self.resolver).exchanges()
    }

    /// The resolver after the last step.
    pub fn into_resolver(self) -> Resolver<Recorded<H>, S>
        ensures { result ≡ self.resolver }
    {
        let Transcript { resolver, .. } = self;
        resolver
    }
}

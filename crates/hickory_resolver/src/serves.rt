//! What serves requests over a handle, as a resolver does.
ghost use Rattle.std.specs.Prelude.{◌≡◌};
ghost use Rattle.hickory_resolver_lookup.specs.Requests.{request_of};

use crate::resolver::Resolver;
use crate::transcript::Reply;
use hickory_proto_core::DnsHandle;
use hickory_resolver_cache::ResponseCache;
use hickory_resolver_config::{ResolverConfig, ResolverOpts};
use hickory_resolver_hosts::Hosts;
use hickory_resolver_lookup::Request;
use std::hash::BuildHasher;

// What serves requests over a handle. The prover has no rule yet for a call, at the type `Recorded<H>`, of a function
// whose signature holds errors, as that of each over a resolver does: this trait names no type that holds one.
pub trait Serves: Sized {
    type Cache;

    type Handle;

    type Hosts;

    type Reply;

    ghost use Rattle.std.specs.Prelude.{◌≡◌};
    ghost use Rattle.hickory_resolver_config.specs.ResolverConfig.{ResolverConfigValue, OptionsValue};
    ghost use Rattle.hickory_resolver_model.specs.Run.{RequestValue};
    ghost use Rattle.hickory_resolver_lookup.specs.Requests.{request_of};

    ghost made_of: { ResolverConfigValue → OptionsValue → Self.Cache → Self.Handle → Self.Hosts → Self };

    ghost handle_of: { Self → Self.Handle };

    ghost answers: { RequestValue → Self → Self.Reply → Self → Type 0 };

    // One over this handle.
    fn make(
        config: ResolverConfig,
        options: ResolverOpts,
        cache: Self::Cache,
        handle: Self::Handle,
        hosts: Self::Hosts,
    ) -> Self
        ensures { result ≡ made_of config options cache handle hosts };

    // The handle.
    fn upstream(&self) -> &Self::Handle
        ensures { result.now ≡ handle_of self.now };

    // What a request is answered.
    fn answer(&mut self, request: &Request) -> Self::Reply
        ensures { answers (request_of request.now) self.old result self.new };
}

impl<R: DnsHandle, S: BuildHasher> Serves for Resolver<R, S> {
    type Cache = ResponseCache<S>;

    type Handle = R;

    type Hosts = Hosts<S>;

    type Reply = Reply;

    ghost use Rattle.hickory_resolver.specs.Replies.{reply_of};
    ghost use Rattle.hickory_resolver.specs.Serving.{Answered};

    ghost made_of = { λ config options cache handle hosts. record {
      client = record { cache = cache; handle = handle; preserve_intermediates = options.preserve_intermediates };
      hosts = hosts;
      config = config;
      options = options;
    } };

    ghost handle_of = { λ r. r.client.handle };

    ghost answers = { λ request before reply after. Answered R.DnsHandle.step request before (reply_of reply) after };

    fn make(
        config: ResolverConfig,
        options: ResolverOpts,
        cache: ResponseCache<S>,
        handle: R,
        hosts: Hosts<S>,
    ) -> Resolver<R, S> {
        Resolver::new(config, options, cache, handle, hosts)
    }

    fn upstream(&self) -> &R {
        self.client().handle()
    }

    fn answer(&mut self, request: &Request) -> Reply {
        match request {
            Request::Lookup {
                name,
                record_type,
                now,
            } => Reply::Lookup(self.lookup(name.as_str(), *record_type, *now)),
            Request::LookupIp { host, now } => Reply::LookupIp(self.lookup_ip(host.as_str(), *now)),
            Request::ClearLookup {
                name,
                record_type,
                now: _,
            } => Reply::Cleared(self.clear_lookup_cache(name.as_str(), *record_type)),
            Request::Clear { now: _ } => {
                self.clear_cache();
                Reply::Cleared(Ok(()))
            }
        }
    }
}

// A resolver over this handle.
pub fn resolver_over<A: Serves>(
    config: ResolverConfig,
    options: ResolverOpts,
    cache: A::Cache,
    handle: A::Handle,
    hosts: A::Hosts,
) -> A
    ensures { result ≡ A.made_of config options cache handle hosts }
{
    A::make(config, options, cache, handle, hosts)
}

// What a request is answered.
pub fn answer_by<A: Serves>(resolver: &mut A, request: &Request) -> A::Reply
    ensures { A.answers (request_of request.now) resolver.old result resolver.new }
{
    resolver.answer(request)
}

// The handle.
pub fn upstream_of<A: Serves>(resolver: &A) -> &A::Handle
    ensures { result.now ≡ A.handle_of resolver.now }
{
    resolver.upstream()
}

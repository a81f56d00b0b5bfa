//! Runs: requests one after another, over one resolver.
ghost use Rattle.std.specs.Prelude.{◌≡◌, [], List, IfErr, IfOk, MatchResult, None, map};
ghost use Rattle.hickory_resolver_model.specs.Bounds.{bounds_fault};
ghost use Rattle.hickory_resolver_model.specs.Options.{bounds_of};
ghost use Rattle.hickory_resolver_model.specs.Resolver.{new_resolver};
ghost use Rattle.hickory_resolver_model.specs.Run.{StepValue};
ghost use Rattle.hickory_resolver_lookup.specs.Requests.{request_of};
ghost use Rattle.hickory_resolver.specs.Listening.{HearsAll};
ghost use Rattle.hickory_resolver.specs.Transcripts.{IsNoRun, NewRun};

use crate::keeping::keep_steps;
use crate::listener::{Heard, Listener};
use crate::resolver::Resolver;
use crate::resolver_builder::first_cache;
use crate::serve::serve_each;
use crate::serves::resolver_over;
use crate::transcript::Transcript;
use hickory_proto_core::{DnsHandle, NetError, Recorded};
use hickory_resolver_config::{ResolverConfig, ResolverOpts};
use hickory_resolver_hosts::Hosts;
use hickory_resolver_lookup::Request;
use std::alloc::AllocError;
use std::hash::{BuildHasher, BuildHasherDefault, FoldHasher};

/// Serves requests in order by a new resolver with this configuration, these options and this table of hosts, over
/// this handle. Each request that is served has a step: its moment, how many questions were sent for it, and what it is
/// answered. A request that finds no memory is answered so, and is the last that is served.
/// Options whose bounds on times to live are reversed are refused, before any memory is taken; where there
/// is none for the steps the run is refused as out of memory. A run that is refused has asked nothing, though no
/// clause says so, since the handle is gone: its bounds are looked at, and room for its steps is taken, by functions that
/// have no handle or leave it as it was.
pub fn run<H: DnsHandle + Drop>(
    config: ResolverConfig,
    options: ResolverOpts,
    hosts: Hosts,
    handle: H,
    requests: &[Request],
) -> Result<Transcript<H>, NetError>
    ensures run { IfOk result (λ t. NewRun H.step config options hosts handle (map request_of requests.now)
        t.steps t.resolver) }
    ensures refused { IfErr result (IsNoRun (bounds_fault (bounds_of options))) }
{
    run_with_hasher(
        config,
        options,
        hosts,
        handle,
        requests,
        BuildHasherDefault::new(),
    )
}

/// As `run`; names of questions in the cache are hashed by this hasher, and those of the hosts by their own.
pub fn run_with_hasher<H: DnsHandle + Drop, S: BuildHasher + Drop>(
    config: ResolverConfig,
    options: ResolverOpts,
    hosts: Hosts<S>,
    handle: H,
    requests: &[Request],
    cache_hasher: S,
) -> Result<Transcript<H, S>, NetError>
    ensures run { IfOk result (λ t. NewRun H.step config options hosts handle (map request_of requests.now)
        t.steps t.resolver) }
    ensures refused { IfErr result (IsNoRun (bounds_fault (bounds_of options))) }
{
    let alloc = *config.search.allocator();
    let mut resolver = first_resolver(config, options, hosts, handle, cache_hasher)?;
    match keep_steps(alloc, &mut resolver, requests) {
        Ok(steps) => Ok(Transcript::new(steps, resolver)),
        Err(AllocError) => {
            drop(resolver);
            Err(NetError::OutOfMemory)
        }
    }
}

/// As `run_with_hasher`, but no step is kept: this listener hears of each when it is made. An error of the listener
/// ends the run, which is then out of memory; questions may have been asked by then.
pub fn run_told<H: DnsHandle + Drop, S: BuildHasher + Drop, L: Listener + Drop>(
    config: ResolverConfig,
    options: ResolverOpts,
    hosts: Hosts<S>,
    handle: H,
    requests: &[Request],
    cache_hasher: S,
    mut listener: L,
) -> Result<Heard<Recorded<H>, S, L>, NetError>
    ensures run { IfOk result (λ t. (steps : List StepValue)
        × NewRun H.step config options hosts handle (map request_of requests.now) steps t.resolver
        × HearsAll L.hears listener (map request_of requests.now) steps t.resolver.client.handle.exchanges
        t.listener) }
    ensures refused { IfErr result (IsNoRun (bounds_fault (bounds_of options))) }
{
    let mut resolver = first_resolver(config, options, hosts, handle, cache_hasher)?;
    match serve_each(&mut resolver, &mut listener, requests) {
        Ok(()) => Ok(Heard { resolver, listener }),
        Err(AllocError) => {
            drop(resolver);
            Err(NetError::OutOfMemory)
        }
    }
}

// A resolver before its first request, over a handle that keeps what it sends and what came back. Takes no memory.
fn first_resolver<H: DnsHandle + Drop, S: BuildHasher + Drop>(
    config: ResolverConfig,
    options: ResolverOpts,
    hosts: Hosts<S>,
    handle: H,
    cache_hasher: S,
) -> Result<Resolver<Recorded<H>, S>, NetError>
    ensures { MatchResult result (λ r. (bounds_fault (bounds_of options) ≡ None)
        × (r ≡ record (new_resolver config options (record { handle = handle; exchanges = [] })) { hosts = hosts }))
        (IsNoRun (bounds_fault (bounds_of options))) }
{
    let alloc = *config.search.allocator();
    match first_cache(alloc, &options, cache_hasher) {
        Ok(cache) => {
            let handle = Recorded::new(alloc, handle);
            Ok(resolver_over(config, options, cache, handle, hosts))
        }
        Err(error) => {
            drop(config);
            drop(options);
            drop(hosts);
            Err(error)
        }
    }
}

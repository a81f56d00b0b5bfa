//! Runs a script.
ghost use Rattle.std.specs.Prelude.{◌≡◌, IfErr, IfOk, IsOkUnless, MatchResult, None, map, string_bytes};
ghost use Rattle.hickory_proto_core.specs.Table.{last_given, outcome_in};
ghost use Rattle.hickory_proto_core.specs.declared.query.Query.{Query};
ghost use Rattle.hickory_resolver.specs.Requests.{request_of};
ghost use Rattle.hickory_resolver_model.specs.Bounds.{bounds_fault};
ghost use Rattle.hickory_resolver_model.specs.Options.{bounds_of};
ghost use Rattle.hickory_resolver_model.specs.Run.{settings_of};
ghost use Rattle.replay.specs.ScriptRun.{IsNoTable, IsRefused, IsReplayed, IsScriptTold, IsTable, IsTextOfRun, IsToldOver, first_moment};

use crate::error::ReplayError;
use crate::text_listener::TextListener;
use hickory_proto_core::{DnsHandle, Outcome, Query, Recorded, ScriptHandle, TableHandle};
use hickory_resolver::{Heard, Hosts, Request, ResolverConfig, ResolverOpts, run_told};
use replay_script::{Script, read_script};
use std::alloc::{AllocError, Global};
use std::hash::{BuildHasher, BuildHasherDefault, FoldHasher};

/// The text of a run of the script over what a file of hosts says: a block for each request. The hosts are
/// read at the moment of the first request, or at 0; no bytes are no hosts. Where the script has a fault or
/// else the hosts have one, or memory runs out, there is no text.
pub fn replay_text(alloc: Global, script: &[u8], hosts: &[u8]) -> Result<String, ReplayError>
    ensures ok { IfOk result (λ text. IsReplayed script.now hosts.now (string_bytes text)) }
    ensures err { IfErr result (IsRefused script.now hosts.now) }
{
    let cache_hasher: BuildHasherDefault<FoldHasher> = BuildHasherDefault::new();
    let table_hasher: BuildHasherDefault<FoldHasher> = BuildHasherDefault::new();
    replay_text_with_hashers(
        alloc,
        script,
        hosts,
        cache_hasher,
        BuildHasherDefault::new(),
        table_hasher,
    )
}

/// As `replay_text`; names of questions in the cache are hashed by the first hasher, those of the hosts by the
/// second, and where the script's outcomes are a table, its questions by the third.
pub fn replay_text_with_hashers<S: BuildHasher + Drop, T: BuildHasher + Drop>(
    alloc: Global,
    script: &[u8],
    hosts: &[u8],
    cache_hasher: S,
    hosts_hasher: S,
    table_hasher: T,
) -> Result<String, ReplayError>
    ensures ok { IfOk result (λ text. IsReplayed script.now hosts.now (string_bytes text)) }
    ensures err { IfErr result (IsRefused script.now hosts.now) }
{
    match read_script(alloc, script) {
        Ok(script) => text_of_script(script, hosts, cache_hasher, hosts_hasher, table_hasher),
        Err(fault) => Err(ReplayError::from(fault)),
    }
}

// The text of a run of what a script says over what a file of hosts says.
fn text_of_script<S: BuildHasher + Drop, T: BuildHasher + Drop>(
    script: Script,
    hosts: &[u8],
    cache_hasher: S,
    hosts_hasher: S,
    table_hasher: T,
) -> Result<String, ReplayError>
    requires { bounds_fault (bounds_of script.options) ≡ None }
    ensures ok { IfOk result (λ text. IsToldOver script hosts.now (string_bytes text)) }
    ensures err { IfErr result (IsNoTable (first_moment script.requests) hosts.now) }
{
    let alloc = *script.search.allocator();
    let now = first_moment(&script.requests);
    match read_table(alloc, hosts, now, hosts_hasher) {
        Ok(hosts) => text_over_table(script, hosts, cache_hasher, table_hasher),
        Err(error) => Err(error),
    }
}

// The text of a run of what a script says over a table of hosts.
fn text_over_table<S: BuildHasher + Drop, T: BuildHasher + Drop>(
    script: Script,
    hosts: Hosts<S>,
    cache_hasher: S,
    table_hasher: T,
) -> Result<String, ReplayError>
    requires { bounds_fault (bounds_of script.options) ≡ None }
    ensures ok { IfOk result (λ text. IsScriptTold script hosts (string_bytes text)) }
    ensures err { IsOkUnless result ReplayError.Memory }
{
    let Script {
        table,
        outcomes,
        requests,
        options,
        domain,
        search,
    } = script;
    let alloc = *search.allocator();
    let config = ResolverConfig::from_parts(domain, search, Vec::new(alloc));
    if table {
        match table_of(outcomes, table_hasher) {
            Ok(upstream) => text_of_run(config, options, hosts, upstream, &requests, cache_hasher),
            Err(error) => Err(error),
        }
    } else {
        match without_questions(alloc, outcomes) {
            Ok(outcomes) => {
                let upstream = ScriptHandle::new(outcomes);
                text_of_run(config, options, hosts, upstream, &requests, cache_hasher)
            }
            Err(_) => Err(ReplayError::Memory),
        }
    }
}

// The moment of the first request, or 0.
fn first_moment(requests: &[Request]) -> u64
    ensures { result ≡ first_moment (map request_of requests.now) }
{
    match requests.first() {
        Some(request) => request.moment(),
        None => 0,
    }
}

// What a file of hosts says, read at this moment (seconds).
fn read_table<S: BuildHasher + Drop>(
    alloc: Global,
    hosts: &[u8],
    now: u64,
    hasher: S,
) -> Result<Hosts<S>, ReplayError>
    ensures { MatchResult result (IsTable now hosts.now) (IsNoTable now hosts.now) }
{
    let mut table = Hosts::with_hasher(alloc, hasher);
    match table.read_hosts_bytes(hosts, now) {
        Ok(()) => Ok(table),
        Err(error) => Err(ReplayError::from(error)),
    }
}

// An upstream that looks each question up among the outcomes.
fn table_of<T: BuildHasher + Drop>(
    outcomes: Vec<(Query, Outcome)>,
    hasher: T,
) -> Result<TableHandle<T>, ReplayError>
    ensures ok { IfOk result (λ table. (q : Query) → outcome_in q table ≡ last_given q outcomes.items) }
    ensures err { IsOkUnless result ReplayError.Memory }
{
    match TableHandle::with_hasher(outcomes, hasher) {
        Ok(table) => Ok(table),
        Err(_) => Err(ReplayError::Memory),
    }
}

// The outcomes without the questions of their lines.
fn without_questions(
    alloc: Global,
    outcomes: Vec<(Query, Outcome)>,
) -> Result<Vec<Outcome>, AllocError>
    ensures { IfOk result (λ v. v.items ≡ map (λ o. o.1) outcomes.items) }
{
    outcomes
        .into_iter()
        .map(|(_, outcome)| outcome)
        .collect(alloc)
}

// The text of a run of requests over an upstream. Where the upstream's type is known, the borrow checker does not cover a
// call of `run_told`, whose error names `'static`.
fn text_of_run<H: DnsHandle + Drop, S: BuildHasher + Drop>(
    config: ResolverConfig,
    options: ResolverOpts,
    hosts: Hosts<S>,
    upstream: H,
    requests: &[Request],
    hasher: S,
) -> Result<String, ReplayError>
    requires { bounds_fault (bounds_of options) ≡ None }
    ensures ok { IfOk result (λ text. IsTextOfRun H.step (settings_of config options hosts) upstream
        (map request_of requests.now) (string_bytes text)) }
    ensures err { IsOkUnless result ReplayError.Memory }
{
    let text = String::new(*config.search.allocator());
    let listener = TextListener { text };
    match run_told(config, options, hosts, upstream, requests, hasher, listener) {
        Ok(heard) => Ok(text_of(heard)),
        Err(_) => Err(ReplayError::Memory),
    }
}

// The text that was made of a run.
fn text_of<H: DnsHandle + Drop, S: BuildHasher + Drop>(
    heard: Heard<Recorded<H>, S, TextListener>,
) -> String
    ensures { result ≡ heard.listener.text }
{
    let Heard { resolver, listener } = heard;
    drop(resolver);
    listener.text
}

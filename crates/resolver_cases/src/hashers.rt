//! Hashers of which each counts: which of them a clear of a name asks, and which a replay asks.
use crate::sample::{Said, script};
use crate::shown::say;
use case_hashers::{Counting, no_calls};
use hickory_proto_core::{NetError, RecordType, ScriptHandle};
use hickory_resolver::{Resolver, ResolverConfig, Watched};
use replay::{ReplayError, replay_with_hashers};
use std::alloc::Global;

/// Whether it asks the cache's, and whether it asks that of the table of hosts.
pub fn show_hashers(rt: &impl Print, alloc: Global) -> Result<(), NetError> {
    say(rt, &"# a clear asks the hashers");
    let (cache, hosts) = (no_calls(alloc)?, no_calls(alloc)?);
    let (of_cache, of_hosts) = (Counting::over(&cache)?, Counting::over(&hosts)?);
    let mut resolver = resolver_with(alloc, of_cache, of_hosts)?;
    drop(resolver.ipv4_lookup("a.", 0));
    let before = (cache.get(), hosts.get());
    drop(resolver.clear_lookup_cache("a.", RecordType::A));
    drop(resolver);
    let (of_cache, of_hosts) = (cache.get() > before.0, hosts.get() > before.1);
    let _ = println!(rt; "cache {of_cache}, hosts {of_hosts}");
    Ok(())
}

// With these hashers of the cache and of the table of hosts.
fn resolver_with(
    alloc: Global,
    cache: Counting,
    hosts: Counting,
) -> Result<Resolver<ScriptHandle, Counting>, NetError> {
    let handle = script(alloc, &[("a", RecordType::A, Said::Address)])?;
    let builder = Resolver::builder_with_config(ResolverConfig::default(alloc), handle);
    builder.with_hasher(cache, hosts).build()
}

/// Which of three hashers a table without a request asks, over hosts of one name.
pub fn show_hashers_of_replay(rt: &impl Print, alloc: Global) -> Result<(), NetError> {
    say(rt, &"# a replay without a request asks the hashers");
    let (cache, hosts, table) = (no_calls(alloc)?, no_calls(alloc)?, no_calls(alloc)?);
    let (of_cache, of_hosts) = (Counting::over(&cache)?, Counting::over(&hosts)?);
    let of_table = Counting::over(&table)?;
    let is_told = replayed(alloc, of_cache, of_hosts, of_table).is_ok();
    let (of_cache, of_hosts, of_table) = (cache.get() > 0, hosts.get() > 0, table.get() > 0);
    let _ = println!(rt; "told {is_told}, cache {of_cache}, hosts {of_hosts}, table {of_table}");
    Ok(())
}

fn replayed(
    alloc: Global,
    cache: Counting,
    hosts: Counting,
    table: Counting,
) -> Result<(), ReplayError> {
    let mut writer = Watched::new(Vec::new(alloc));
    let script = b"upstream table\nfail timeout a. A";
    let file: Option<&[u8]> = Some(b"192.0.2.9 h");
    let told = replay_with_hashers(alloc, script, file, &mut writer, cache, hosts, table);
    drop(writer);
    told
}

//! How a session is opened.
ghost use Rattle.std.specs.Prelude.{◌≡◌, ◌≢◌, IfOk, IsOkUnless, MatchResult, None};
ghost use Rattle.hickory_resolver_model.specs.Bounds.{bounds_fault};
ghost use Rattle.hickory_resolver_model.specs.Options.{bounds_of};
ghost use Rattle.yimarotu_session.specs.Opening.{AreLinesRead, AreSettingsSaid, IsHostsRead, IsMade, IsMadeOver, IsNoSettings, IsSettingsRead, only_sets, resolver_over};

use crate::cache_setting::{SplitSettings, split_settings, with_octets};
use hickory_proto_core::ScriptHandle;
use hickory_resolver::{Hosts, HostsError, Resolver, ResolverConfig};
use replay_script::{Script, ScriptError, ScriptFault, read_script};
use std::alloc::{AllocError, Global};
use thiserror::Error;

/// Why a session was not opened.
#[derive(Clone, Copy, Debug, PartialEq, Eq, Error)]
pub enum OpenError {
    /// The settings have a fault.
    #[error("{0}")]
    Script(ScriptError),
    /// A line of the settings is an outcome or a request.
    #[error("not a setting")]
    NotSettings,
    /// The hosts have a fault.
    #[error("hosts: {0}")]
    Hosts(HostsError),
    /// No memory was left.
    #[error("out of memory")]
    OutOfMemory,
}

// The resolver of these settings over what a file of hosts says, read at this moment (seconds).
pub(crate) fn read_resolver(
    alloc: Global,
    settings: &[u8],
    hosts: &[u8],
    now: u64,
) -> Result<Resolver<ScriptHandle>, OpenError>
    ensures { IsMade settings.now hosts.now now result }
{
    match read_settings(alloc, settings) {
        Ok(script) => read_over(alloc, script, hosts, now),
        Err(error) => Err(error),
    }
}

// The resolver of these settings over what a file of hosts says, read at this moment (seconds).
pub(crate) fn read_over(
    alloc: Global,
    script: Script,
    hosts: &[u8],
    now: u64,
) -> Result<Resolver<ScriptHandle>, OpenError>
    requires { bounds_fault (bounds_of script.options) ≡ None }
    ensures { IsMadeOver hosts.now now script result }
{
    match read_hosts(alloc, hosts, now) {
        Ok(table) => resolver_of(alloc, script, table),
        Err(error) => Err(error),
    }
}

// What the settings set: lines of a script that do nothing else, and how many octets the cache may take.
pub(crate) fn read_settings(alloc: Global, settings: &[u8]) -> Result<Script, OpenError>
    ensures { IsSettingsRead settings.now result }
{
    match split_settings(alloc, settings) {
        Ok(said) => read_said(alloc, &said),
        Err(AllocError) => Err(OpenError::OutOfMemory),
    }
}

fn read_said(alloc: Global, said: &SplitSettings) -> Result<Script, OpenError>
    ensures { MatchResult result (AreSettingsSaid said.now) (IsNoSettings said.now.lines) }
{
    match read_lines(alloc, &said.lines) {
        Ok(script) => Ok(with_octets(script, said.octets)),
        Err(error) => Err(error),
    }
}

// What the lines of a script set, where they do nothing else.
fn read_lines(alloc: Global, lines: &[u8]) -> Result<Script, OpenError>
    ensures { AreLinesRead lines.now result }
{
    match read_script(alloc, lines) {
        Ok(script) if only_sets(&script) => Ok(script),
        Ok(_) => Err(OpenError::NotSettings),
        Err(error) => Err(settings_error(error)),
    }
}

fn only_sets(script: &Script) -> bool
    ensures { result ≡ only_sets script.now }
{
    script.outcomes.is_empty() && script.requests.is_empty()
}

// A fault of the settings.
fn settings_error(error: ScriptError) -> OpenError
    ensures memory { error.fault ≡ ScriptFault.OutOfMemory → result ≡ OpenError.OutOfMemory }
    ensures fault { error.fault ≢ ScriptFault.OutOfMemory → result ≡ OpenError.Script error }
{
    match error.fault {
        ScriptFault::OutOfMemory => OpenError::OutOfMemory,
        _ => OpenError::Script(error),
    }
}

// What a file of hosts says, read at this moment (seconds).
fn read_hosts(alloc: Global, hosts: &[u8], now: u64) -> Result<Hosts, OpenError>
    ensures { IsHostsRead hosts.now now result }
{
    let mut table = Hosts::default(alloc);
    match table.read_hosts_bytes(hosts, now) {
        Ok(()) => Ok(table),
        Err(HostsError::OutOfMemory) => Err(OpenError::OutOfMemory),
        Err(error) => Err(OpenError::Hosts(error)),
    }
}

// The resolver of these settings, whose bounds are in order, over these hosts. Its own handle is never asked.
fn resolver_of(
    alloc: Global,
    script: Script,
    hosts: Hosts,
) -> Result<Resolver<ScriptHandle>, OpenError>
    requires { bounds_fault (bounds_of script.options) ≡ None }
    ensures ok { IfOk result (λ r. r ≡ resolver_over script hosts) }
    ensures err { IsOkUnless result OpenError.OutOfMemory }
{
    let Script {
        options,
        domain,
        search,
        outcomes,
        requests,
        ..
    } = script;
    drop(outcomes);
    drop(requests);
    let config = ResolverConfig::from_parts(domain, search, Vec::new(alloc));
    let handle = ScriptHandle::new(Vec::new(alloc));
    let builder = Resolver::builder_with_config(config, handle).with_options(options);
    match builder.build() {
        Ok(mut resolver) => {
            resolver.set_hosts(hosts);
            Ok(resolver)
        }
        Err(_) => {
            drop(hosts);
            Err(OpenError::OutOfMemory)
        }
    }
}

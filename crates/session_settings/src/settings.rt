//! What a session with a network is opened with.
ghost use Rattle.std.specs.Prelude.{◌≡◌, [], IfOk};
ghost use Rattle.std.specs.Str.Lines.{lines};
ghost use Rattle.resolv_conf.specs.ResolvConf.{resolv_conf};
ghost use Rattle.session_settings.specs.ServerLine.{file_servers};
ghost use Rattle.session_settings.specs.Settings.{AreSettingsBehind, AreSettingsOver, IsFinished, IsSettingsRead, servers_or, settings_with};

use crate::reading::Reading;
use crate::server_line::file_servers;
use crate::settings_error::SettingsError;
use hickory_proto_core::Name;
use hickory_resolver_config::ResolverOpts;
use hickory_resolver_pool::PoolServer;
use replay_script::{Configuration, ScriptError};
use resolv_conf::{ResolvConf, read_resolv_conf};
use std::alloc::{AllocError, Global};
use std::marker::Model;

/// What a session with a network is opened with.
#[derive(Drop)]
pub struct SessionSettings {
    /// How servers are asked, how long answers are kept, and which addresses are looked up.
    pub options: ResolverOpts,
    /// The domain that relative names are looked up in, beside the search list.
    pub domain: Option<Name>,
    /// The search list: that of the file, and behind it the domains of lines.
    pub search: Vec<Name>,
    /// The servers that are asked, each with the scope of its address, in order.
    pub servers: Vec<PoolServer>,
}

impl Model for SessionSettings {
    ghost use Rattle.session_settings.specs.Settings.{SettingsValue};

    ghost Value = { SettingsValue };

    ghost view = { λ s. record {
      options = s.options;
      domain = s.domain;
      search = s.search.items;
      servers = s.servers.items;
    } };
}

/// Reads what a session with a network is opened with: a file `resolv.conf` (resolv.conf(5) of glibc) of a host of this
/// name, any octets, and over it settings, a line each. A line counts in place of the file and of lines before it; a
/// line `search` adds a domain behind the search list; the servers of lines `server` count in place of those of the
/// file.
///
/// A line is blank, a comment behind `#`, a setting of a script, or one of these:
///
/// - `option` and the name of a field of `ResolverOpts` and its value, where no script has it: `timeout` (seconds),
///   `attempts`, `edns0`, `edns_payload_len` (octets), `num_concurrent_reqs`, `max_active_requests`, `try_tcp_on_error`,
///   `recursion_desired`, `case_randomization`, `server_ordering_strategy`, or `cache_octets`;
/// - `server` and an address, as it stands behind `nameserver` in the file, and behind that a port from 1 to 65535 or
///   53, and `udp` or `tcp`, without which both are used.
///
/// The first line that is nothing of this is told. Where each line is, bounds on times to live are refused whose least
/// is above their greatest.
pub fn read_session_settings(
    alloc: Global,
    conf: &[u8],
    hostname: &[u8],
    settings: &[u8],
) -> Result<SessionSettings, SettingsError>
    ensures { IsSettingsRead conf.now hostname.now settings.now result }
{
    match read_resolv_conf(alloc, conf, hostname) {
        Ok(conf) => read_over(alloc, conf, settings),
        Err(AllocError) => Err(SettingsError::OutOfMemory),
    }
}

/// The servers of a file `resolv.conf`.
pub fn read_servers(alloc: Global, conf: &[u8]) -> Result<Vec<PoolServer>, AllocError>
    ensures { IfOk result (λ servers. servers.items ≡ file_servers (resolv_conf conf.now [])) }
{
    match read_resolv_conf(alloc, conf, &[]) {
        Ok(conf) => file_servers(alloc, &conf),
        Err(AllocError) => Err(AllocError),
    }
}

// The settings over a file that is read.
fn read_over(
    alloc: Global,
    conf: ResolvConf,
    settings: &[u8],
) -> Result<SessionSettings, SettingsError>
    ensures { AreSettingsOver conf (lines settings.now) result }
{
    match file_servers(alloc, &conf) {
        Ok(servers) => read_behind(alloc, Reading::over(alloc, conf), servers, settings),
        Err(AllocError) => Err(SettingsError::OutOfMemory),
    }
}

// The lines behind what is set already; these servers count where none names one.
fn read_behind(
    alloc: Global,
    reading: Reading,
    servers: Vec<PoolServer>,
    settings: &[u8],
) -> Result<SessionSettings, SettingsError>
    ensures { AreSettingsBehind reading servers.items (lines settings.now) result }
{
    match reading.read_lines(alloc, settings) {
        Ok(reading) => finish(alloc, reading, servers),
        Err(error) => Err(error),
    }
}

// Behind the last line: the settings, or reversed bounds.
fn finish(
    alloc: Global,
    reading: Reading,
    servers: Vec<PoolServer>,
) -> Result<SessionSettings, SettingsError>
    ensures { IsFinished reading servers.items result }
{
    match reading.configuration.check_bounds(alloc) {
        Ok(()) => Ok(settings_with(reading, servers)),
        Err(fault) => Err(SettingsError::Line(ScriptError { line: 0, fault })),
    }
}

fn settings_with(reading: Reading, servers: Vec<PoolServer>) -> SessionSettings
    ensures { result ≡ settings_with reading servers.items }
{
    let Reading {
        configuration,
        servers: named,
    } = reading;
    let Configuration {
        options,
        domain,
        search,
        ..
    } = configuration;
    SessionSettings {
        options,
        domain,
        search,
        servers: servers_or(named, servers),
    }
}

// The servers that lines name, or else these.
fn servers_or(named: Vec<PoolServer>, servers: Vec<PoolServer>) -> Vec<PoolServer>
    ensures { result.items ≡ servers_or named.items servers.items }
{
    if named.is_empty() { servers } else { named }
}

//! What a forwarder is opened with.
ghost use Rattle.std.specs.Prelude.{◌≡◌, MatchResult, OnOk};
ghost use Rattle.std.specs.Str.Lines.{lines};
ghost use Rattle.session_settings.specs.Settings.{servers_or};
ghost use Rattle.forwarder_settings.specs.Reading.{settings_over};
ghost use Rattle.forwarder_settings.specs.Settings.{AreSettingsBehind, AreSettingsOver, IsSettingsRead, finished, with_clients};

use crate::prefixes::push_near_networks;
use crate::reading::ForwarderSettings;
use hickory_resolver_pool::PoolServer;
use resolv_conf::{ResolvConf, read_resolv_conf};
use session_settings::{SettingsError, file_servers};
use std::alloc::{AllocError, Global};
use yimarotu_forwarder::ForwarderOptions;

/// Reads what a forwarder is opened with: a file `resolv.conf` (resolv.conf(5) of glibc) of a host of this name, any
/// octets, of which the servers and the options count, and over it settings, a line each. A line counts in place of the
/// file and of lines before it; servers, networks and domains add up. Of several lines that say what is done with one
/// domain the last counts.
///
/// A line is blank, a comment behind `#`, or one of these:
///
/// - `server` and an address, as it stands behind `nameserver` in the file, and behind that a port from 1 to 65535 or
///   53, and `udp` or `tcp`, without which both are used: a general server, in place of those of the file;
/// - `forward` and a domain and a server, as behind `server`: the domain and all names below it are asked of it, and of
///   the others of the same domain. Without a server they are asked of the general servers, though a zone above is
///   served or blocked;
/// - `serve` and a domain: an empty zone is served (RFC 6303, section 3);
/// - `block` and a domain, and behind it `noname`, `nodata` or `null`, without which it is `noname`: the domain and all
///   names below it do not exist, have no records, or have the addresses 0.0.0.0 and :: alone;
/// - `allow` and a network: its clients may ask. Where no line says so those of loopback, private and link-local
///   networks may;
/// - `deny_answers` and a network, or `private`: its addresses are taken out of replies, and HTTPS and SVCB records
///   that hint at one; `private` is the networks that are loopback, private, link-local, unspecified, or IPv6 that
///   stands for IPv4. `allow_answers` and a network: its addresses stay all the same. `allow_answers_for` and a domain:
///   all addresses stay in replies to questions for it and for the names below it;
/// - `option` and the name of an option and its value. Those that say how servers are asked are as in the settings of a
///   session: `timeout` (seconds), `attempts`, `edns0`, `edns_payload_len` (octets), `num_concurrent_reqs`,
///   `max_active_requests`, `try_tcp_on_error`, `case_randomization`, `server_ordering_strategy`. Those of a forwarder
///   are `trusts_authentic_data` (as `trust-ad` of the file says), `drops_strangers` (false), `serves_locally` (true),
///   `prefetches` (false), `greatest_ttl` (seconds; 3600), `serves_stale` (seconds; 0, and a day at the most),
///   `cache_octets` (67108864), `cache_entries` (as many as the octets allow), `failures` (4096), `clients` (4096),
///   `clients_of_address` (256), `clients_of_question` (256).
///
/// A network is an address, and behind `/` the number of its leading bits (RFC 4632, section 3.1; RFC 4291, section
/// 2.3), without which it is the whole address. The first line that is nothing of this is told.
pub fn read_forwarder_settings(
    alloc: Global,
    conf: &[u8],
    hostname: &[u8],
    settings: &[u8],
) -> Result<ForwarderSettings, SettingsError>
    ensures { IsSettingsRead conf.now hostname.now settings.now result }
{
    match read_resolv_conf(alloc, conf, hostname) {
        Ok(conf) => read_over(alloc, conf, settings),
        Err(AllocError) => Err(SettingsError::OutOfMemory),
    }
}

// The settings over a file that is read.
fn read_over(
    alloc: Global,
    conf: ResolvConf,
    settings: &[u8],
) -> Result<ForwarderSettings, SettingsError>
    ensures { AreSettingsOver conf (lines settings.now) result }
{
    match file_servers(alloc, &conf) {
        Ok(servers) => read_behind(alloc, conf, servers, settings),
        Err(AllocError) => Err(SettingsError::OutOfMemory),
    }
}

// The lines behind a file with these servers.
fn read_behind(
    alloc: Global,
    conf: ResolvConf,
    servers: Vec<PoolServer>,
    settings: &[u8],
) -> Result<ForwarderSettings, SettingsError>
    ensures { AreSettingsBehind (settings_over conf.options conf.trust_ad) servers.items (lines settings.now) result }
{
    let ResolvConf {
        options,
        trust_ad,
        ..
    } = conf;
    match ForwarderSettings::over(alloc, options, trust_ad).read_lines(alloc, settings) {
        Ok(read) => finish(read, servers),
        Err(error) => Err(error),
    }
}

// Behind the last line.
fn finish(
    read: ForwarderSettings,
    servers: Vec<PoolServer>,
) -> Result<ForwarderSettings, SettingsError>
    ensures { MatchResult result (λ settings. settings ≡ finished servers.items read)
        (λ error. error ≡ SettingsError.OutOfMemory) }
{
    let mut settings = with_servers(read, servers);
    match add_clients(&mut settings.forwarder) {
        Ok(()) => Ok(settings),
        Err(AllocError) => Err(SettingsError::OutOfMemory),
    }
}

// Where no line names a server, these are asked.
fn with_servers(mut settings: ForwarderSettings, servers: Vec<PoolServer>) -> ForwarderSettings
    ensures { result ≡ record settings { servers = servers_or settings.servers servers.items } }
{
    if settings.servers.is_empty() {
        settings.servers = servers;
    }
    settings
}

// Where no line names a network, those of a house may ask.
fn add_clients(forwarder: &mut ForwarderOptions) -> Result<(), AllocError>
    ensures { OnOk result (forwarder.new ≡ with_clients forwarder.old) }
{
    if forwarder.may_ask.is_empty() {
        push_near_networks(&mut forwarder.may_ask)
    } else {
        Ok(())
    }
}

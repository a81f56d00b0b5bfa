//! How a session with a network is opened.
ghost use Rattle.std.specs.Prelude.{◌≡◌, IfOk, None};
ghost use Rattle.hickory_resolver_model.specs.Bounds.{bounds_fault};
ghost use Rattle.hickory_resolver_model.specs.Options.{bounds_of};
ghost use Rattle.yimarotu_embedded.specs.NetworkOpening.{AreHostsRead, AsksServers, HasServers, IsBegun, IsOpened, IsOpenedOver, IsServed, resolver_with, session_or};

use crate::seeds::{Seeds, seeds_of};
use hickory_proto_core::ScriptHandle;
use hickory_resolver::{Hosts, HostsError, Resolver, ResolverConfig, ResolverOpts};
use hickory_resolver_pool::{PoolLimits, PoolServer, ServersError};
use session_settings::{SessionSettings, SettingsError, read_session_settings};
use std::alloc::{AllocError, Global};
use std::hash::RandomState;
use thiserror::Error;
use yimarotu_session::NetworkSession;

/// Why a session with a network was not opened.
#[derive(Clone, Copy, Debug, PartialEq, Eq, Error)]
pub enum NetworkOpenError {
    /// A line of the settings has a fault, or sets nothing.
    #[error("{0}")]
    Settings(SettingsError),
    /// The hosts have a fault.
    #[error("hosts: {0}")]
    Hosts(HostsError),
    /// The server of this place, counted from 0, is to be asked over UDP from a port that is given, which no line says.
    #[error("server {0} has a UDP source port")]
    FixedPort(usize),
    /// No memory was left.
    #[error("out of memory")]
    OutOfMemory,
}

/// A session with a network: over a resolver of what a file resolv.conf says on a host of this name and, in place of
/// it, of what these settings say, over what a file of hosts says, read at this moment (milliseconds), and over a pool of
/// its servers. The seed is 32 octets that nobody knows.
pub fn open_network_session(
    alloc: Global,
    conf: &[u8],
    hostname: &[u8],
    settings: &[u8],
    hosts: &[u8],
    seed: [u8; 32],
    now: u64,
) -> Result<NetworkSession, NetworkOpenError>
    ensures { IsOpened conf.now hostname.now settings.now hosts.now seed now result }
{
    match read_session_settings(alloc, conf, hostname, settings) {
        Ok(settings) => open_over(alloc, settings, hosts, seed, now),
        Err(error) => Err(NetworkOpenError::Settings(error)),
    }
}

// The same over settings whose bounds are in order.
fn open_over(
    alloc: Global,
    settings: SessionSettings,
    hosts: &[u8],
    seed: [u8; 32],
    now: u64,
) -> Result<NetworkSession, NetworkOpenError>
    requires { bounds_fault (bounds_of settings.options) ≡ None }
    ensures { IsOpenedOver settings hosts.now seed now result }
{
    // (the source of these seeds refuses none)
    let Ok(seeds) = seeds_of(seed) else {
        return Err(NetworkOpenError::OutOfMemory);
    };
    match read_hosts(alloc, hosts, now / 1000, seeds.hosts) {
        Ok(table) => serve(alloc, settings, table, seeds),
        Err(error) => Err(error),
    }
}

// What a file of hosts says, read at this moment (seconds).
fn read_hosts(
    alloc: Global,
    hosts: &[u8],
    now: u64,
    hasher: RandomState,
) -> Result<Hosts<RandomState>, NetworkOpenError>
    ensures { AreHostsRead hosts.now now result }
{
    let mut table = Hosts::with_hasher(alloc, hasher);
    match table.read_hosts_bytes(hosts, now) {
        Ok(()) => Ok(table),
        Err(HostsError::OutOfMemory) => Err(NetworkOpenError::OutOfMemory),
        Err(error) => Err(NetworkOpenError::Hosts(error)),
    }
}

// The session of these settings over these hosts, with its servers.
fn serve(
    alloc: Global,
    settings: SessionSettings,
    hosts: Hosts<RandomState>,
    seeds: Seeds,
) -> Result<NetworkSession, NetworkOpenError>
    requires { bounds_fault (bounds_of settings.options) ≡ None }
    ensures { IsServed settings hosts seeds.pool result }
{
    let SessionSettings {
        options,
        domain,
        search,
        servers,
    } = settings;
    let config = ResolverConfig::from_parts(domain, search, Vec::new(alloc));
    match resolver_of(alloc, config, options, hosts, &seeds) {
        Ok(resolver) => begin(alloc, resolver, seeds, &servers),
        Err(AllocError) => Err(NetworkOpenError::OutOfMemory),
    }
}

// A resolver with these options, whose bounds are in order, over these hosts. Its own handle is never asked.
fn resolver_of(
    alloc: Global,
    config: ResolverConfig,
    options: ResolverOpts,
    hosts: Hosts<RandomState>,
    seeds: &Seeds,
) -> Result<Resolver<ScriptHandle, RandomState>, AllocError>
    requires { bounds_fault (bounds_of options) ≡ None }
    ensures { IfOk result (λ resolver. resolver ≡ resolver_with config options hosts) }
{
    let handle = ScriptHandle::new(Vec::new(alloc));
    let builder = Resolver::builder_with_config(config, handle)
        .with_options(options)
        .with_hasher(seeds.cache, seeds.hosts);
    match builder.build() {
        Ok(mut resolver) => {
            resolver.set_hosts(hosts);
            Ok(resolver)
        }
        Err(_) => {
            drop(hosts);
            Err(AllocError)
        }
    }
}

// A session over this resolver, with these servers.
fn begin(
    alloc: Global,
    resolver: Resolver<ScriptHandle, RandomState>,
    seeds: Seeds,
    servers: &[PoolServer],
) -> Result<NetworkSession, NetworkOpenError>
    ensures { IsBegun servers.now resolver seeds.pool result }
{
    let limits = PoolLimits::default();
    match NetworkSession::new(alloc, resolver, limits, seeds.pool, seeds.questions) {
        Ok(session) => with_servers(session, servers),
        Err(AllocError) => Err(NetworkOpenError::OutOfMemory),
    }
}

fn with_servers(
    session: NetworkSession,
    servers: &[PoolServer],
) -> Result<NetworkSession, NetworkOpenError>
    ensures { HasServers servers.now session result }
{
    let mut session = session;
    let asked = ask_servers(&mut session, servers);
    session_or(session, asked)
}

// The session asks these servers from now on.
fn ask_servers(session: &mut NetworkSession, servers: &[PoolServer]) -> Result<(), NetworkOpenError>
    ensures { AsksServers servers.now session.old result session.new }
{
    match session.set_servers(servers) {
        Ok(()) => Ok(()),
        Err(ServersError::FixedPort(place)) => Err(NetworkOpenError::FixedPort(place)),
        Err(ServersError::OutOfMemory) => Err(NetworkOpenError::OutOfMemory),
    }
}

fn session_or(
    session: NetworkSession,
    ended: Result<(), NetworkOpenError>,
) -> Result<NetworkSession, NetworkOpenError>
    ensures { result ≡ session_or session ended }
{
    match ended {
        Ok(()) => Ok(session),
        Err(error) => {
            drop(session);
            Err(error)
        }
    }
}

//! What a file says, as the configuration of a resolver.
ghost use Rattle.std.specs.Prelude.{◌≡◌, Ok, IfOk, OnOk, map};
ghost use Rattle.std.specs.List.{list_any};
ghost use Rattle.hickory_resolver_config.specs.Servers.{server_over};
ghost use Rattle.resolv_conf.specs.Names.{domain_of_host, last_domains_line, names_domains};
ghost use Rattle.resolv_conf.specs.ResolvConf.{ResolvConfValue, configuration_of, default_domain_said, default_server_said, ip_strategy_of, is_server_line, options_of, ordering_of, protocols_of, resolv_conf};
ghost use Rattle.resolv_conf.specs.Said.{with_said};
ghost use Rattle.resolv_conf.specs.Text.{lines_of};

use crate::keyword::{Keyword, keyword_of};
use crate::passed_over::PassedOver;
use crate::reading::{Reading, read_name};
use crate::server::{Scope, Server};
use crate::settings::Settings;
use crate::text::{Lines, cut_at, has_word, split_word};
use hickory_proto_core::{Name, NetError};
use hickory_resolver_config::{
    LookupIpStrategy, NameServerConfig, ResolverConfig, ResolverOpts, ServerOrderingStrategy,
};
use std::alloc::{AllocError, Global};
use std::marker::Model;
use std::net::{IpAddr, Ipv4Addr};

/// What a file `resolv.conf` says.
#[derive(Debug, Drop)]
pub struct ResolvConf {
    /// The servers of all lines `nameserver`, at port 53 over UDP and TCP, or with `use-vc` over TCP alone; 127.0.0.1
    /// where there is no such line. The search list is that of the last line `search` or `domain`; with neither, the
    /// part of the hostname behind its first dot. There is no domain beside it.
    pub config: ResolverConfig,
    /// The default options of a resolver, but for these. `ndots` is that of `ndots:`, 15 at most, 1 without it.
    /// `timeout` (seconds) is that of `timeout:`, 1 at least and 30 at most, 5 without it. `attempts` is one less than
    /// `attempts:`, which counts rounds, 5 at most and 1 at least; it is 1 without it. `edns0` is whether `edns0`
    /// stands. `ip_strategy` is `Ipv4Only` with `no-aaaa`. `server_ordering_strategy` is `UserProvidedOrder`, or with
    /// `rotate` `RoundRobin`, and `num_concurrent_reqs` is 1: one server is asked after the other.
    pub options: ResolverOpts,
    /// For each server of `config`, in its order, the scope behind `%`, which a link-local address may have.
    pub scopes: Vec<Option<Scope>>,
    /// Whether the servers and the way to them are trusted with the AD bit (RFC 4035, section 4.9.3): `trust-ad`.
    pub trust_ad: bool,
    /// What was passed over, by its line.
    pub passed_over: Vec<PassedOver>,
}

impl Model for ResolvConf {
    ghost use Rattle.resolv_conf.specs.ResolvConf.{ResolvConfValue};

    ghost Value = { ResolvConfValue };

    ghost view = { λ c. record {
      config = c.config;
      options = c.options;
      scopes = c.scopes.items;
      trust_ad = c.trust_ad;
      passed_over = c.passed_over.items;
    } };
}

/// Reads a file `resolv.conf` (resolv.conf(5) of glibc) of a host of this name. Any octets are read; what is not
/// understood is passed over. The only error is to be out of memory.
pub fn read_resolv_conf(
    alloc: Global,
    octets: &[u8],
    hostname: &[u8],
) -> Result<ResolvConf, AllocError>
    ensures { IfOk result (λ c. c ≡ resolv_conf octets.now hostname.now) }
{
    let last = last_domains_line(octets);
    let mut reading = Reading::new(alloc);
    reading.read(octets, last)?;
    add_default_server(&mut reading, octets)?;
    add_default_domain(alloc, &mut reading, last, hostname)?;
    configuration_of(alloc, reading)
}

// The number of the last line that names domains.
fn last_domains_line(octets: &[u8]) -> Option<usize>
    ensures { result ≡ last_domains_line 1 (lines_of octets.now) }
{
    let mut last = None;
    let mut number = 0;
    for line in Lines::new(octets) {
        number += 1;
        if names_domains(line) {
            last = Some(number);
        }
    }
    last
}

// Whether a line names domains.
#[tactic(auto, using(std::proofs::lemmas::Grind::common_steps), unfolding(crate::specs::Names::names_domains))]
fn names_domains(line: &[u8]) -> bool
    ensures { result ≡ names_domains line.now }
{
    let (_, values) = split_word(line);
    match keyword_of(line) {
        Keyword::Domain | Keyword::Search => has_word(values),
        _ => false,
    }
}

// Where no line names a server, the server is this machine.
#[tactic(auto, using(std::proofs::lemmas::Grind::common_steps), unfolding(crate::specs::ResolvConf::default_server_said))]
fn add_default_server(reading: &mut Reading, octets: &[u8]) -> Result<(), AllocError>
    ensures { OnOk result (reading.new ≡ with_said reading.old (default_server_said (lines_of octets.now))) }
{
    if has_server_line(octets) {
        return Ok(());
    }
    reading.add_server(Server {
        address: IpAddr::V4(Ipv4Addr::new(127, 0, 0, 1)),
        scope: None,
    })
}

fn has_server_line(octets: &[u8]) -> bool
    ensures { result ≡ list_any is_server_line (lines_of octets.now) }
{
    for line in Lines::new(octets) {
        if is_server_line(line) {
            return true;
        }
    }
    false
}

fn is_server_line(line: &[u8]) -> bool
    ensures { result ≡ is_server_line line.now }
{
    matches!(keyword_of(line), Keyword::NameServer)
}

// Where no line names domains, the domain of the host is the one of the search list.
fn add_default_domain(
    alloc: Global,
    reading: &mut Reading,
    last: Option<usize>,
    hostname: &[u8],
) -> Result<(), AllocError>
    ensures { OnOk result (reading.new ≡ with_said reading.old (default_domain_said last hostname.now)) }
{
    if last.is_some() {
        return Ok(());
    }
    match domain_of_host(alloc, hostname)? {
        Some(domain) => reading.add_name(domain),
        None => Ok(()),
    }
}

// What stands behind the first dot of the hostname, where it is a domain name.
#[tactic(auto, using(std::proofs::lemmas::Grind::common_steps), unfolding(crate::specs::Names::domain_of_host))]
fn domain_of_host(alloc: Global, hostname: &[u8]) -> Result<Option<Name>, AllocError>
    ensures { IfOk result (λ domain. domain ≡ domain_of_host hostname.now) }
{
    match cut_at(b'.', hostname) {
        Some((_, domain)) => read_name(alloc, domain),
        None => Ok(None),
    }
}

// The configuration that was read.
fn configuration_of(alloc: Global, reading: Reading) -> Result<ResolvConf, AllocError>
    ensures { IfOk result (λ c. c ≡ configuration_of reading) }
{
    let Reading {
        addresses,
        scopes,
        search,
        settings,
        passed_over,
    } = reading;
    let name_servers = name_servers(alloc, &addresses, settings)?;
    Ok(ResolvConf {
        config: ResolverConfig::from_parts(None, search, name_servers),
        options: options_of(alloc, settings),
        scopes,
        trust_ad: settings.trust_ad,
        passed_over,
    })
}

// The servers at the addresses that were read.
fn name_servers(
    alloc: Global,
    addresses: &[IpAddr],
    settings: Settings,
) -> Result<Vec<NameServerConfig>, AllocError>
    ensures { IfOk result
        (λ servers. servers.items ≡ map (server_over (protocols_of settings)) addresses.now) }
{
    let mut servers = Vec::new(alloc);
    for address in addresses {
        servers.push(name_server(alloc, *address, settings)?)?;
    }
    Ok(servers)
}

fn name_server(
    alloc: Global,
    address: IpAddr,
    settings: Settings,
) -> Result<NameServerConfig, AllocError>
    ensures { IfOk result (λ server. server ≡ server_over (protocols_of settings) address) }
{
    let server = if settings.use_vc {
        NameServerConfig::tcp(alloc, address)
    } else {
        NameServerConfig::udp_and_tcp(alloc, address)
    };
    memory_only(server)
}

// What fails only where memory runs out.
fn memory_only(made: Result<NameServerConfig, NetError>) -> Result<NameServerConfig, AllocError>
    ensures { IfOk result (λ server. made ≡ Ok server) }
{
    match made {
        Ok(server) => Ok(server),
        Err(_) => Err(AllocError),
    }
}

// The options of a resolver.
fn options_of(alloc: Global, settings: Settings) -> ResolverOpts
    ensures { result ≡ options_of settings }
{
    let mut options = ResolverOpts::default(alloc);
    options.ndots = usize::from(settings.ndots);
    options.timeout = u64::from(settings.timeout);
    options.attempts = usize::from(settings.attempts);
    options.edns0 = settings.edns0;
    options.ip_strategy = ip_strategy(settings);
    options.num_concurrent_reqs = 1;
    options.server_ordering_strategy = ordering(settings);
    options
}

fn ip_strategy(settings: Settings) -> LookupIpStrategy
    ensures { result ≡ ip_strategy_of settings }
{
    if settings.no_aaaa {
        LookupIpStrategy::Ipv4Only
    } else {
        LookupIpStrategy::Ipv6AndIpv4
    }
}

fn ordering(settings: Settings) -> ServerOrderingStrategy
    ensures { result ≡ ordering_of settings }
{
    if settings.rotate {
        ServerOrderingStrategy::RoundRobin
    } else {
        ServerOrderingStrategy::UserProvidedOrder
    }
}

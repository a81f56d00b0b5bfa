//! Servers, groups of them, and configurations.
use crate::memory::marks::done;
use crate::sample::{IP, group, name, text};
use crate::shown::{Shown, say, show};
use hickory_proto_core::NetError;
use hickory_resolver::{
    ConnectionConfig, NameServerConfig, ResolverConfig, ServerGroup, cloudflare, google, quad9,
};
use std::alloc::Global;

/// Makes the call of a case, and says whether there is such a case.
pub fn make(rt: &impl Print, alloc: Global, case: &str) -> Result<bool, NetError> {
    match case {
        "ConnectionConfig::https"
        | "ConnectionConfig::h3"
        | "NameServerConfig::tls"
        | "NameServerConfig::https"
        | "NameServerConfig::quic"
        | "NameServerConfig::h3" => done(with_name(rt, alloc, case)),
        "NameServerConfig::udp_and_tcp"
        | "NameServerConfig::udp"
        | "NameServerConfig::tcp"
        | "NameServerConfig::opportunistic_encryption" => {
            show(rt, call!(rt, case, without_name(alloc, case)));
            Ok(true)
        }
        "ResolverConfig::udp_and_tcp"
        | "ResolverConfig::tls"
        | "ResolverConfig::https"
        | "ResolverConfig::quic"
        | "ResolverConfig::h3"
        | "ServerGroupIter::next" => done(with_group(rt, alloc, case)),
        "google" => {
            show(rt, call!(rt, case, google(alloc)));
            Ok(true)
        }
        "cloudflare" => {
            show(rt, call!(rt, case, cloudflare(alloc)));
            Ok(true)
        }
        "quad9" => {
            show(rt, call!(rt, case, quad9(alloc)));
            Ok(true)
        }
        "ResolverConfig::set_domain"
        | "ResolverConfig::add_search"
        | "ResolverConfig::add_name_server" => done(change(rt, alloc, case)),
        _ => Ok(false),
    }
}

impl Shown for ConnectionConfig {
    fn show(&self, rt: &impl Print) {
        let _ = println!(rt; "{:?} {}", self.protocol, self.port);
    }
}

impl Shown for NameServerConfig {
    fn show(&self, rt: &impl Print) {
        say(rt, &"a server");
        show_connections(rt, self);
    }
}

impl Shown for ResolverConfig {
    fn show(&self, rt: &impl Print) {
        say(rt, &"servers");
        for server in self.name_servers() {
            show_connections(rt, server);
        }
    }
}

impl Shown for ServerGroup<'_> {
    fn show(&self, rt: &impl Print) {
        let _ = println!(rt; "{self:?}");
    }
}

fn show_connections(rt: &impl Print, server: &NameServerConfig) {
    for connection in &server.connections {
        let _ = rt.print("  ");
        connection.show(rt);
    }
}

fn with_name(rt: &impl Print, alloc: Global, case: &str) -> Result<(), NetError> {
    let name = text(alloc, "s.")?;
    match case {
        "ConnectionConfig::https" => show(rt, call!(rt, case, ConnectionConfig::https(name, None))),
        "ConnectionConfig::h3" => show(rt, call!(rt, case, ConnectionConfig::h3(name, None))),
        "NameServerConfig::tls" => show(rt, call!(rt, case, NameServerConfig::tls(IP, name))),
        "NameServerConfig::https" => {
            show(rt, call!(rt, case, NameServerConfig::https(IP, name, None)));
        }
        "NameServerConfig::quic" => show(rt, call!(rt, case, NameServerConfig::quic(IP, name))),
        _ => show(rt, call!(rt, case, NameServerConfig::h3(IP, name, None))),
    }
    Ok(())
}

fn without_name(alloc: Global, case: &str) -> Result<NameServerConfig, NetError> {
    match case {
        "NameServerConfig::udp_and_tcp" => NameServerConfig::udp_and_tcp(alloc, IP),
        "NameServerConfig::udp" => NameServerConfig::udp(alloc, IP),
        "NameServerConfig::tcp" => NameServerConfig::tcp(alloc, IP),
        _ => NameServerConfig::opportunistic_encryption(alloc, IP),
    }
}

fn with_group(rt: &impl Print, alloc: Global, case: &str) -> Result<(), NetError> {
    let group = group(alloc)?;
    match case {
        "ServerGroupIter::next" => match call!(rt, case, group.tls().next()) {
            Some(answer) => show(rt, answer),
            None => say(rt, &"no server"),
        },
        _ => show(rt, call!(rt, case, servers(case, &group))),
    }
    drop(group);
    Ok(())
}

fn servers(case: &str, group: &ServerGroup<'_>) -> Result<ResolverConfig, NetError> {
    match case {
        "ResolverConfig::udp_and_tcp" => ResolverConfig::udp_and_tcp(group),
        "ResolverConfig::tls" => ResolverConfig::tls(group),
        "ResolverConfig::https" => ResolverConfig::https(group),
        "ResolverConfig::quic" => ResolverConfig::quic(group),
        _ => ResolverConfig::h3(group),
    }
}

fn change(rt: &impl Print, alloc: Global, case: &str) -> Result<(), NetError> {
    let mut config = ResolverConfig::default(alloc);
    let changed = show_changed(rt, alloc, case, &mut config);
    drop(config);
    changed
}

// What a call answered, whether there is a domain then, and how many search domains and servers.
fn show_changed(
    rt: &impl Print,
    alloc: Global,
    case: &str,
    config: &mut ResolverConfig,
) -> Result<(), NetError> {
    match case {
        "ResolverConfig::add_name_server" => {
            let server = NameServerConfig::udp(alloc, IP)?;
            show(rt, call!(rt, case, config.add_name_server(server)));
        }
        "ResolverConfig::set_domain" => {
            let name = name(alloc, "d")?;
            show(rt, call!(rt, case, config.set_domain(name)));
        }
        _ => {
            let name = name(alloc, "d")?;
            show(rt, call!(rt, case, config.add_search(name)));
        }
    }
    let (has_domain, search) = (config.domain().is_some(), config.search().len());
    let _ = println!(rt; "  {has_domain} {search} {}", config.name_servers().len());
    Ok(())
}

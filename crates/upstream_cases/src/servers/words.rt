//! What the words of a line say of a server.
use crate::words::has_word;
use hickory_resolver_config::{
    ConnectionConfig, NameServerConfig, ProtocolConfig, ServerOrderingStrategy,
};
use std::alloc::{AllocError, Global};
use std::net::{IpAddr, Ipv4Addr};

/// A server of a number: `udp=` and `tcp=` with a port each, in order, `tls`, and `trusted`.
pub fn config_of(alloc: Global, number: u8, text: &str) -> Result<NameServerConfig, AllocError> {
    let mut connections = Vec::new(alloc);
    for word in text.split_whitespace() {
        if let Some(connection) = connection_of(alloc, word)? {
            connections.push(connection)?;
        }
    }
    let ip = IpAddr::V4(Ipv4Addr::new(192, 0, 2, number));
    Ok(NameServerConfig::new(ip, has_word(text, "trusted"), connections))
}

fn connection_of(alloc: Global, word: &str) -> Result<Option<ConnectionConfig>, AllocError> {
    if word == "tls" {
        let name = String::from_str(alloc, "dns.test")?;
        return Ok(Some(ConnectionConfig::tls(name)));
    }
    if let Some(port) = word.strip_prefix("udp=") {
        return Ok(Some(connection(ProtocolConfig::Udp, port)));
    }
    if let Some(port) = word.strip_prefix("tcp=") {
        return Ok(Some(connection(ProtocolConfig::Tcp, port)));
    }
    Ok(None)
}

fn connection(protocol: ProtocolConfig, port: &str) -> ConnectionConfig {
    ConnectionConfig {
        port: port.parse::<u16>().unwrap_or(0),
        protocol,
        bind_addr: None,
    }
}

/// A strategy, and what is behind its word.
pub fn strategy_of(text: &str) -> (ServerOrderingStrategy, &str) {
    let (word, rest) = text.split_once(' ').unwrap_or((text, ""));
    let strategy = match word {
        "given" => ServerOrderingStrategy::UserProvidedOrder,
        "turn" => ServerOrderingStrategy::RoundRobin,
        _ => ServerOrderingStrategy::QueryStatistics,
    };
    (strategy, rest)
}

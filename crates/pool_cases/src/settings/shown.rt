//! What a session is opened with, as text.
use hickory_resolver_config::{ConnectionConfig, ProtocolConfig, ResolverOpts};
use hickory_resolver_pool::PoolServer;
use session_settings::SessionSettings;
use std::str;

/// The options in three lines, and a line for each domain and for each server.
pub fn show(rt: &impl Print, settings: &SessionSettings) {
    show_numbers(rt, &settings.options);
    show_choices(rt, &settings.options);
    show_cache(rt, &settings.options);
    if let Some(domain) = &settings.domain {
        let _ = println!(rt; "domain {domain}");
    }
    for domain in &settings.search {
        let _ = println!(rt; "search {domain}");
    }
    for server in &settings.servers {
        show_server(rt, server);
    }
}

fn show_numbers(rt: &impl Print, options: &ResolverOpts) {
    let (ndots, timeout, attempts) = (options.ndots, options.timeout, options.attempts);
    let _ = print!(rt; "ndots {ndots}, timeout {timeout}, attempts {attempts}, ");
    let (payload, servers) = (options.edns_payload_len, options.num_concurrent_reqs);
    let messages = options.max_active_requests;
    let _ = println!(rt; "payload {payload}, at a time {servers} servers and {messages} messages");
}

fn show_choices(rt: &impl Print, options: &ResolverOpts) {
    let (edns, tcp) = (options.edns0, options.try_tcp_on_error);
    let (recursion, case) = (options.recursion_desired, options.case_randomization);
    let _ = print!(rt; "edns {edns}, tcp on error {tcp}, recursion {recursion}, case {case}, ");
    let (order, addresses) = (options.server_ordering_strategy, options.ip_strategy);
    let _ = println!(rt; "{order:?}, {addresses:?}");
}

fn show_cache(rt: &impl Print, options: &ResolverOpts) {
    let (results, octets) = (options.cache_size, options.cache_octets);
    let kept = options.preserve_intermediates;
    let _ = print!(rt; "cache {results}, octets {octets:?}, aliases {kept}, ");
    let (positive_min, positive_max) = (options.positive_min_ttl, options.positive_max_ttl);
    let (negative_min, negative_max) = (options.negative_min_ttl, options.negative_max_ttl);
    let _ = print!(rt; "positive {positive_min:?} to {positive_max:?}, ");
    let _ = println!(rt; "negative {negative_min:?} to {negative_max:?}");
}

fn show_server(rt: &impl Print, server: &PoolServer) {
    let address = server.config.ip;
    let _ = print!(rt; "server {address}");
    if let Ok(scope) = str::from_utf8(&server.scope) {
        let _ = print!(rt; " scope '{scope}'");
    }
    for connection in &server.config.connections {
        show_connection(rt, connection);
    }
    let trusted = server.config.trust_negative_responses;
    let _ = println!(rt; " trusted {trusted}");
}

fn show_connection(rt: &impl Print, connection: &ConnectionConfig) {
    let word = match connection.protocol {
        ProtocolConfig::Udp => "udp",
        ProtocolConfig::Tcp => "tcp",
        _ => "other",
    };
    let port = connection.port;
    let _ = print!(rt; " {word} {port}");
}

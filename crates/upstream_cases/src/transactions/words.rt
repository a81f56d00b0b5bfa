//! What the words of a line say of a transaction.
use crate::words::{has_word, number};
use hickory_proto_core::ResponseCode;
use hickory_resolver_config::{ConnectionConfig, NameServerConfig};
use hickory_resolver_servers::Server;
use hickory_resolver_transactions::{Made, Settings};
use hickory_resolver_tries::ReplyOutcome;
use std::alloc::{AllocError, Global};
use std::net::{IpAddr, Ipv4Addr};

// The number behind a word, or another one where the word is not there.
fn number_of(text: &str, wanted: &str, otherwise: u64) -> u64 {
    for word in text.split_whitespace() {
        if let Some(digits) = word.strip_prefix(wanted) {
            return digits.parse::<u64>().unwrap_or(0);
        }
    }
    otherwise
}

/// The number of a place in a line as that of a message.
pub fn id(numbers: &[u64], place: usize) -> u16 {
    number(numbers, place).min(65535) as u16
}

/// `timeout=`, `rounds=`, `concurrent=`, `tcp` and `letters`.
pub fn settings_of(text: &str) -> Settings {
    Settings {
        timeout: number_of(text, "timeout=", 5000),
        rounds: number_of(text, "rounds=", 1) as usize,
        concurrent: number_of(text, "concurrent=", 1) as usize,
        tcp_on_error: has_word(text, "tcp"),
        varies_letters: has_word(text, "letters"),
    }
}

/// `udp`, `tcp` and `trusted`.
pub fn server_of(alloc: Global, text: &str) -> Result<Server, AllocError> {
    let mut connections = Vec::new(alloc);
    if has_word(text, "udp") {
        connections.push(ConnectionConfig::udp())?;
    }
    if has_word(text, "tcp") {
        connections.push(ConnectionConfig::tcp())?;
    }
    let ip = IpAddr::V4(Ipv4Addr::new(192, 0, 2, 1));
    let config = NameServerConfig::new(ip, has_word(text, "trusted"), connections);
    Ok(Server::new(&config, Vec::new(alloc)))
}

/// A channel, the number of a message, and a moment.
pub fn made_of(numbers: &[u64]) -> Made {
    Made {
        channel: number(numbers, 0),
        id: id(numbers, 1),
        letters: [255; 32],
        moment: number(numbers, 2),
    }
}

/// What a reply comes to.
pub fn outcome_of(text: &str) -> ReplyOutcome {
    for word in text.split_whitespace() {
        match word {
            "answer" => return ReplyOutcome::Answer,
            "negative" => return ReplyOutcome::Negative,
            "cut" => return ReplyOutcome::Truncated,
            "lame" => return ReplyOutcome::Lame,
            "noopt" => return ReplyOutcome::WithoutOpt,
            "servfail" => return ReplyOutcome::Code(ResponseCode::ServFail),
            _ => {}
        }
    }
    ReplyOutcome::BadRest
}

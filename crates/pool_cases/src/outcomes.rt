//! What a transaction came to.
use hickory_proto_core::{DnsError, DnsResponse, NetError, ResponseCode};
use hickory_resolver_pool::{Over, PoolOutcome};
use std::alloc::Global;

/// Its words.
pub fn words_of(alloc: Global, over: &Over) -> anyhow::Result<String> {
    match over.outcome() {
        PoolOutcome::Response => code_text(alloc, over),
        PoolOutcome::Cut => text_of(alloc, "cut"),
        PoolOutcome::Code => error_text(alloc, over),
        PoolOutcome::Unreachable => text_of(alloc, "unreachable"),
        PoolOutcome::Timeout => text_of(alloc, "timeout"),
        PoolOutcome::Overloaded => text_of(alloc, "overloaded"),
    }
}

fn text_of(alloc: Global, words: &str) -> anyhow::Result<String> {
    Ok(String::from_str(alloc, words)?)
}

// The code of the response.
fn code_text(alloc: Global, over: &Over) -> anyhow::Result<String> {
    match over.message() {
        Some(read) => {
            let code = read.message.metadata.response_code;
            Ok(format!(in alloc; "{code}")?)
        }
        None => text_of(alloc, "no message"),
    }
}

// The code that the core is told.
fn error_text(alloc: Global, over: &Over) -> anyhow::Result<String> {
    let told = over.dns_outcome();
    let code = code_in(&told);
    drop(told);
    match code {
        Some(code) => Ok(format!(in alloc; "code {code}")?),
        None => text_of(alloc, "code of no error"),
    }
}

fn code_in(outcome: &Result<DnsResponse, NetError>) -> Option<ResponseCode> {
    match outcome {
        Err(NetError::Dns(DnsError::ResponseCode(code))) => Some(*code),
        _ => None,
    }
}

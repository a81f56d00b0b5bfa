//! What a cache holds.
ghost use Rattle.std.specs.Prelude.{◌≡◌, IfOk, IsOk, IsNone};
ghost use Rattle.hickory_resolver_model.specs.Cache.{entry_of, positive_entry, negative_entry, not_after};

use crate::outcome::KeptOutcome;
use hickory_proto_core::{DnsError, Message, NetError, NoRecords, Query};
use hickory_resolver_lookup::TtlConfig;
use std::alloc::{AllocError, Global};
use std::marker::Model;

/// An outcome that is kept for a question, when it was stored, and until when it is current (seconds).
#[derive(Drop)]
pub struct CacheEntry {
    pub query: Query,
    pub result: KeptOutcome,
    pub original_time: u64,
    pub valid_until: u64,
}

impl Model for CacheEntry {
    ghost use Rattle.hickory_resolver_model.specs.Cache.{Entry};

    ghost Value = { Entry };

    ghost view = { λ e. record {
      query = e.query;
      result = e.result;
      original_time = e.original_time;
      valid_until = e.valid_until;
    } };
}

impl CacheEntry {
    // The entry, current up to a limit at the most.
    pub fn not_after(self, limit: u64) -> CacheEntry
        ensures { result ≡ not_after limit self }
    {
        let CacheEntry {
            query,
            result,
            original_time,
            valid_until,
        } = self;
        CacheEntry {
            query,
            result,
            original_time,
            valid_until: valid_until.min(limit),
        }
    }
}

// The entry that an outcome becomes at a moment, where it is kept. Only a negative answer takes memory.
pub fn entry_of(
    alloc: Global,
    config: &TtlConfig,
    query: Query,
    outcome: Result<Message, NetError>,
    now: u64,
) -> Result<Option<CacheEntry>, AllocError>
    ensures entry { IfOk result (λ entry. entry ≡ entry_of config.now query outcome now) }
    ensures not_kept { IsNone (entry_of config.now query outcome now) → IsOk result }
{
    match outcome {
        Ok(message) => Ok(Some(positive_entry(config, query, message, now))),
        Err(NetError::Dns(DnsError::NoRecordsFound(negative))) => {
            let entry = negative_entry(alloc, config, query, negative, now)?;
            Ok(Some(entry))
        }
        Err(_) => Ok(None),
    }
}

fn positive_entry(config: &TtlConfig, query: Query, mut message: Message, now: u64) -> CacheEntry
    ensures { result ≡ positive_entry config.now query message now }
{
    config.clamp(&mut message);
    let lifetime = config.positive_lifetime(&query, &message);
    CacheEntry {
        query,
        result: KeptOutcome::answer(message),
        original_time: now,
        valid_until: now.saturating_add(lifetime),
    }
}

fn negative_entry(
    alloc: Global,
    config: &TtlConfig,
    query: Query,
    negative: NoRecords,
    now: u64,
) -> Result<CacheEntry, AllocError>
    ensures { IfOk result (λ entry. entry ≡ negative_entry config.now query negative now) }
{
    let lifetime = config.negative_lifetime(&query, &negative);
    Ok(CacheEntry {
        query,
        result: KeptOutcome::failure(alloc, NetError::from(negative))?,
        original_time: now,
        valid_until: now.saturating_add(lifetime),
    })
}

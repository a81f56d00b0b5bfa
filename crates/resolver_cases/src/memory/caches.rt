//! The cache: what a store or a look into it answers, and what it keeps then.
use crate::memory::marks::done;
use crate::parts::whole;
use crate::sample::{answer, none, query};
use crate::shown::{say, say_part, show, show_outcome};
use hickory_proto_core::{Message, NetError, Query};
use hickory_resolver::{ResponseCache, TtlConfig};
use std::alloc::Global;

/// Makes the call of a case, and says whether there is such a case.
pub fn make(rt: &impl Print, alloc: Global, case: &str) -> Result<bool, NetError> {
    match case {
        "insert into an empty cache" | "get of a negative answer" => {
            done(with_cache(rt, alloc, case, &[]))
        }
        "insert into a cache with room"
        | "insert_until"
        | "upsert_clamped_ttl"
        | "no memory: insert of a failure"
        | "get"
        | "get_with_deadline"
        | "no memory: get without an entry" => done(with_cache(rt, alloc, case, &["p"])),
        "insert into a full cache"
        | "insert in place of an entry"
        | "no memory: clear_query, clear and new" => {
            done(with_cache(rt, alloc, case, &["p", "q"]))
        }
        _ => Ok(false),
    }
}

/// A cache of two entries at most, with an answer for each name: for ten seconds, for twenty ..
pub fn cache_of(alloc: Global, labels: &[&str]) -> Result<ResponseCache, NetError> {
    let mut cache = ResponseCache::new(alloc, 2, TtlConfig::default(alloc));
    whole(fill(alloc, &mut cache, labels), cache)
}

fn fill(alloc: Global, cache: &mut ResponseCache, labels: &[&str]) -> Result<(), NetError> {
    let mut ttl = 0_u32;
    for label in labels {
        ttl = ttl.saturating_add(10);
        cache.insert(query(alloc, label)?, answer(alloc, label, ttl), 0)?;
    }
    Ok(())
}

fn with_cache(rt: &impl Print, alloc: Global, case: &str, kept: &[&str]) -> Result<(), NetError> {
    let mut cache = cache_of(alloc, kept)?;
    let made = with_mut_cache(rt, alloc, case, &mut cache);
    drop(cache);
    made
}

fn with_mut_cache(
    rt: &impl Print,
    alloc: Global,
    case: &str,
    cache: &mut ResponseCache,
) -> Result<(), NetError> {
    let asked = query(alloc, "p")?;
    let made = with_query(rt, alloc, case, cache, &asked);
    drop(asked);
    made
}

fn with_query(
    rt: &impl Print,
    alloc: Global,
    case: &str,
    cache: &mut ResponseCache,
    asked: &Query,
) -> Result<(), NetError> {
    match case {
        "get" => show_got(rt, call!(rt, case, cache.get(asked, 4))),
        "get of a negative answer" => {
            cache.insert(query(alloc, "p")?, stored(alloc, case, "p"), 0)?;
            show_got(rt, call!(rt, case, cache.get(asked, 4)));
        }
        "get_with_deadline" => {
            show_got_until(rt, call!(rt, case, cache.get_with_deadline(asked, 4)));
        }
        "no memory: get without an entry" => {
            let other = query(alloc, "q")?;
            let has = call!(rt, case, (has(cache, &other, 0), has(cache, asked, 11)));
            let _ = println!(rt; "{} {}", has.0, has.1);
        }
        "no memory: clear_query, clear and new" => {
            let (before, after, fresh) = call!(rt, case, clear(alloc, cache, asked));
            let _ = println!(rt; "{before} {after} {fresh}");
        }
        "insert into a cache with room" => store(rt, alloc, case, cache, "q")?,
        "insert into a full cache" => store(rt, alloc, case, cache, "r")?,
        _ => store(rt, alloc, case, cache, "p")?,
    }
    Ok(())
}

// What is stored under a name.
fn stored(alloc: Global, case: &str, label: &str) -> Result<Message, NetError> {
    match case {
        "no memory: insert of a failure" => Err(NetError::Timeout),
        "insert in place of an entry"
        | "insert_until"
        | "upsert_clamped_ttl"
        | "get of a negative answer" => Err(NetError::from(none(alloc)?)),
        _ => answer(alloc, label, 5),
    }
}

// A store under a name, how many entries there are then, and for each name what it has and up to when.
fn store(
    rt: &impl Print,
    alloc: Global,
    case: &str,
    cache: &mut ResponseCache,
    label: &str,
) -> Result<(), NetError> {
    let asked = query(alloc, label)?;
    let stored = stored(alloc, case, label);
    let done = call!(
        rt,
        case,
        match case {
            "insert_until" => cache.insert_until(asked, stored, 0, 7),
            "upsert_clamped_ttl" => cache.upsert_clamped_ttl(asked, stored, 0, true),
            _ => cache.insert(asked, stored, 0),
        }
    );
    show(rt, done);
    say_part(rt, "kept", &cache.len());
    for label in ["p", "q", "r"] {
        let asked = query(alloc, label)?;
        say_kept(rt, label, cache.get_with_deadline(&asked, 0));
    }
    Ok(())
}

fn say_kept(rt: &impl Print, label: &str, hit: Option<(Result<Message, NetError>, u64)>) {
    match &hit {
        Some((Ok(_), until)) => {
            let _ = println!(rt; "  {label} until {until}");
        }
        Some((Err(error), until)) => {
            let _ = println!(rt; "  {label} until {until}: {error}");
        }
        None => {}
    }
    // `drop` costs the prover less than the end of the block.
    drop(hit);
}

fn show_got(rt: &impl Print, hit: Option<Result<Message, NetError>>) {
    match &hit {
        Some(outcome) => show_outcome(rt, outcome),
        None => say(rt, &"nothing"),
    }
    drop(hit);
}

fn show_got_until(rt: &impl Print, hit: Option<(Result<Message, NetError>, u64)>) {
    match &hit {
        Some((outcome, until)) => {
            show_outcome(rt, outcome);
            say_part(rt, "until", until);
        }
        None => say(rt, &"nothing"),
    }
    drop(hit);
}

/// Whether the cache has an answer for a question at a moment.
pub fn has(cache: &ResponseCache, query: &Query, now: u64) -> bool {
    let hit = cache.get(query, now);
    let has = hit.is_some();
    drop(hit);
    has
}

// How many entries there are after one is cleared, after all are, and in a new cache.
fn clear(alloc: Global, cache: &mut ResponseCache, query: &Query) -> (usize, usize, usize) {
    cache.clear_query(query);
    let before = cache.len();
    cache.clear();
    let fresh: ResponseCache = ResponseCache::new(alloc, 2, TtlConfig::default(alloc));
    (before, cache.len(), fresh.len())
}

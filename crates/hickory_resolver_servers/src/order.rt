//! The order in which a round tries the servers that are left in it.
ghost use Rattle.std.specs.Prelude.{◌≡◌, ◌++◌, ◌∷◌, [], ◌<◌, not, filter, find, length, position, remove, slice_get, slice_index, IfOk, Option, None, Some};
ghost use Rattle.std.specs.List.{list_any};
ghost use Rattle.hickory_resolver_servers.specs.Order.{turned, known_of, is_known, round_trip_of, known_in, unknown_in, IsFastestFirst, is_free_for, is_free, beside, first_free, IsByRoundTrip, IsOrder, HasEachOnce, probe_by_round_trip, probe_of};

use crate::server::Server;
use hickory_resolver_config::ServerOrderingStrategy;
use std::alloc::{AllocError, Global};

/// A transaction begins a round.
#[derive(Clone, Copy, Debug, PartialEq, Eq)]
pub struct RoundStart {
    /// The number of the transaction.
    pub transaction: u64,
    /// The place from which a round goes in turn, drawn by the caller: any number, of which only what is left of it
    /// by the count of the servers counts.
    pub place: usize,
    /// The moment, in milliseconds.
    pub moment: u64,
}

// The servers that are left, in the order in which they are tried.
pub(crate) fn order_of(
    alloc: Global,
    strategy: ServerOrderingStrategy,
    round: &RoundStart,
    servers: &[Server],
    left: &[usize],
) -> Result<Vec<usize>, AllocError>
    ensures { IfOk result (λ v. IsOrder strategy round.now servers.now left.now v.items) }
{
    match strategy {
        ServerOrderingStrategy::UserProvidedOrder => Vec::from_slice(alloc, left),
        ServerOrderingStrategy::RoundRobin => turned(alloc, round.place, left),
        ServerOrderingStrategy::QueryStatistics => by_round_trip(alloc, round, servers, left),
    }
}

// The unknown server that is tried beside the fastest one.
pub(crate) fn probe_of(
    strategy: ServerOrderingStrategy,
    round: &RoundStart,
    servers: &[Server],
    left: &[usize],
) -> Option<usize>
    ensures { result ≡ probe_of strategy round.now servers.now left.now }
{
    match strategy {
        ServerOrderingStrategy::QueryStatistics => probe_by_round_trip(round, servers, left),
        _ => None,
    }
}

fn turned(alloc: Global, place: usize, left: &[usize]) -> Result<Vec<usize>, AllocError>
    ensures { IfOk result (λ v. v.items ≡ turned place left.now) }
{
    let mut order = Vec::with_capacity(alloc, left.len())?;
    if left.is_empty() {
        return Ok(order);
    }
    let (before, behind) = left.split_at(place % left.len());
    order.extend_from_slice(behind)?;
    order.extend_from_slice(before)?;
    Ok(order)
}

// ---- what is known of those that are left

fn known_of(servers: &[Server], now: u64, place: usize) -> Option<u32>
    ensures { result ≡ known_of now servers.now place }
{
    match servers.get(place) {
        Some(server) => server.known(now),
        None => None,
    }
}

fn is_known(servers: &[Server], now: u64, place: usize) -> bool
    ensures { result ≡ is_known now servers.now place }
{
    known_of(servers, now, place).is_some()
}

fn round_trip_of(servers: &[Server], now: u64, place: usize) -> u32
    ensures { result ≡ round_trip_of now servers.now place }
{
    known_of(servers, now, place).unwrap_or(0)
}

fn known_in(
    alloc: Global,
    servers: &[Server],
    now: u64,
    left: &[usize],
) -> Result<Vec<usize>, AllocError>
    ensures { IfOk result (λ v. v.items ≡ known_in now servers.now left.now) }
{
    left.iter()
        .copied()
        .filter(|place| is_known(servers, now, *place))
        .collect(alloc)
}

fn unknown_in(
    alloc: Global,
    servers: &[Server],
    now: u64,
    left: &[usize],
) -> Result<Vec<usize>, AllocError>
    ensures { IfOk result (λ v. v.items ≡ unknown_in now servers.now left.now) }
{
    left.iter()
        .copied()
        .filter(|place| !is_known(servers, now, *place))
        .collect(alloc)
}

// Whether no other transaction tries a server.
fn is_free(servers: &[Server], transaction: u64, place: usize) -> bool
    ensures { result ≡ is_free transaction servers.now place }
{
    match servers.get(place) {
        Some(server) => is_free_for(transaction, server.probe),
        None => true,
    }
}

fn is_free_for(transaction: u64, probe: Option<u64>) -> bool
    ensures { result ≡ is_free_for transaction probe }
{
    match probe {
        None => true,
        Some(other) => other == transaction,
    }
}

// Of the unknown ones, the place of the first that is free.
fn first_free(servers: &[Server], transaction: u64, unknown: &[usize]) -> Option<usize>
    ensures { result ≡ position (is_free transaction servers.now) unknown.now }
{
    unknown
        .iter()
        .position(|place| is_free(servers, transaction, *place))
}

// ---- by round trips

// The known ones, the fastest first.
fn ranked(
    alloc: Global,
    servers: &[Server],
    now: u64,
    left: &[usize],
) -> Result<Vec<usize>, AllocError>
    ensures { IfOk result (λ v. IsFastestFirst now servers.now left.now v.items) }
{
    let mut known = known_in(alloc, servers, now, left)?;
    known.sort_by_key(|place| round_trip_of(servers, now, *place))?;
    Ok(known)
}

// One unknown server beside the fastest known one, and all others behind them.
fn beside(
    alloc: Global,
    free: Option<usize>,
    known: &[usize],
    unknown: &mut Vec<usize>,
) -> Result<Vec<usize>, AllocError>
    requires { (place : _) → free ≡ Some place → place < length unknown.old.items }
    ensures { IfOk result (λ v. v.items ≡ beside free known.now unknown.old.items) }
{
    let mut order = Vec::with_capacity(alloc, known.len())?;
    match (known, free) {
        ([best, others @ ..], Some(place)) => {
            order.push(*best)?;
            order.push(unknown.remove(place))?;
            order.extend_from_slice(others)?;
        }
        _ => order.extend_from_slice(known)?,
    }
    order.extend_from_slice(unknown)?;
    Ok(order)
}

fn by_round_trip(
    alloc: Global,
    round: &RoundStart,
    servers: &[Server],
    left: &[usize],
) -> Result<Vec<usize>, AllocError>
    ensures { IfOk result (λ v. IsByRoundTrip round.now servers.now left.now v.items) }
{
    let known = ranked(alloc, servers, round.moment, left)?;
    let mut unknown = unknown_in(alloc, servers, round.moment, left)?;
    let free = first_free(servers, round.transaction, &unknown);
    beside(alloc, free, &known, &mut unknown)
}

fn any_known(servers: &[Server], now: u64, left: &[usize]) -> bool
    ensures { result ≡ list_any (is_known now servers.now) left.now }
{
    left.iter().any(|place| is_known(servers, now, *place))
}

// The first unknown server that is free.
fn free_unknown(round: &RoundStart, servers: &[Server], left: &[usize]) -> Option<usize>
    ensures { result ≡ find (is_free round.now.transaction servers.now)
        (unknown_in round.now.moment servers.now left.now) }
{
    left.iter()
        .copied()
        .filter(|place| !is_known(servers, round.moment, *place))
        .find(|place| is_free(servers, round.transaction, *place))
}

// The unknown server that is tried beside the fastest one.
fn probe_by_round_trip(round: &RoundStart, servers: &[Server], left: &[usize]) -> Option<usize>
    ensures { result ≡ probe_by_round_trip round.now servers.now left.now }
{
    if any_known(servers, round.moment, left) {
        free_unknown(round, servers, left)
    } else {
        None
    }
}

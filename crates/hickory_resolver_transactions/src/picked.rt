//! Servers of a transaction that are picked by a test, and late tries.
ghost use Rattle.std.specs.Prelude.{◌≡◌, ◌==◌, not, find, filter, count_by, slice_get, IfOk};
ghost use Rattle.std.specs.List.{list_any};
ghost use Rattle.std.specs.Option.{option_and_then, option_or, option_map};
ghost use Rattle.hickory_resolver_transactions.specs.Candidates.{is_again, is_queued, is_waiting, is_blocked, is_tried, is_busy, is_try, waits_as, waits_on, is_due, has_failed_by};
ghost use Rattle.hickory_resolver_transactions.specs.Transaction.{candidates_of, is_queued_at, try_in};

use crate::candidate::{Candidate, LateTry, Progress, Try};
use hickory_resolver_servers::Server;
use std::alloc::{AllocError, Global};

// ---- servers that are picked

pub(crate) fn candidates_of(alloc: Global, servers: &[Server]) -> Result<Vec<Candidate>, AllocError>
    ensures { IfOk result (λ v. v.items ≡ candidates_of servers.now) }
{
    servers
        .iter()
        .enumerate()
        .map(|(place, server)| Candidate::new(place, server))
        .collect(alloc)
}

pub(crate) fn waiting_as(candidates: &[Candidate], channel: u64, id: u16) -> Option<Candidate>
    ensures { result ≡ find (λ c. waits_as channel id c.progress) candidates.now }
{
    candidates
        .iter()
        .copied()
        .find(|one| one.progress.waits_as(channel, id))
}

pub(crate) fn waiting_on(candidates: &[Candidate], channel: u64) -> Option<Candidate>
    ensures { result ≡ find (λ c. waits_on channel c.progress) candidates.now }
{
    candidates
        .iter()
        .copied()
        .find(|one| one.progress.waits_on(channel))
}

pub(crate) fn first_due(candidates: &[Candidate], now: u64) -> Option<Candidate>
    ensures { result ≡ find (λ c. is_due now c.progress) candidates.now }
{
    candidates
        .iter()
        .copied()
        .find(|one| one.progress.is_due(now))
}

pub(crate) fn first_blocked(candidates: &[Candidate]) -> Option<Candidate>
    ensures { result ≡ find (λ c. is_blocked c.progress) candidates.now }
{
    candidates
        .iter()
        .copied()
        .find(|one| one.progress.is_blocked())
}

fn picked_again(candidates: &[Candidate]) -> Option<Candidate>
    ensures { result ≡ find (λ c. is_again c.progress) candidates.now }
{
    candidates
        .iter()
        .copied()
        .find(|one| one.progress.is_again())
}

fn picked_queued(candidates: &[Candidate]) -> Option<Candidate>
    ensures { result ≡ find (λ c. is_queued c.progress) candidates.now }
{
    candidates
        .iter()
        .copied()
        .find(|one| one.progress.is_queued())
}

pub(crate) fn candidate_at(candidates: &[Candidate], place: usize) -> Option<Candidate>
    ensures { result ≡ find (λ c. c.place == place) candidates.now }
{
    candidates.iter().copied().find(|one| one.place == place)
}

fn is_queued_at(candidates: &[Candidate], place: usize) -> bool
    ensures { result ≡ is_queued_at candidates.now place }
{
    match candidates.get(place) {
        Some(one) => one.progress.is_queued(),
        None => false,
    }
}

// The place of the first of an order that is queued.
fn place_in_order(candidates: &[Candidate], order: &[usize]) -> Option<usize>
    ensures { result ≡ find (is_queued_at candidates.now) order.now }
{
    order
        .iter()
        .copied()
        .find(|place| is_queued_at(candidates, *place))
}

fn get(candidates: &[Candidate], place: usize) -> Option<Candidate>
    ensures { result ≡ slice_get candidates.now place }
{
    candidates.get(place).copied()
}

// The first of an order that is queued.
fn first_in_order(candidates: &[Candidate], order: &[usize]) -> Option<Candidate>
    ensures { result ≡ option_and_then (slice_get candidates.now) (find (is_queued_at candidates.now) order.now) }
{
    match place_in_order(candidates, order) {
        Some(place) => get(candidates, place),
        None => None,
    }
}

fn first_queued(candidates: &[Candidate], order: &[usize]) -> Option<Candidate>
    ensures { result ≡ option_or
        (option_and_then (slice_get candidates.now) (find (is_queued_at candidates.now) order.now))
        (find (λ c. is_queued c.progress) candidates.now) }
{
    match first_in_order(candidates, order) {
        Some(candidate) => Some(candidate),
        None => picked_queued(candidates),
    }
}

// What is asked again, and else what was not asked yet.
pub(crate) fn next_of(candidates: &[Candidate], order: &[usize]) -> Option<Candidate>
    ensures { result ≡ option_or (find (λ c. is_again c.progress) candidates.now) (option_or
        (option_and_then (slice_get candidates.now) (find (is_queued_at candidates.now) order.now))
        (find (λ c. is_queued c.progress) candidates.now)) }
{
    match picked_again(candidates) {
        Some(candidate) => Some(candidate),
        None => first_queued(candidates, order),
    }
}

pub(crate) fn waiting_count(candidates: &[Candidate]) -> usize
    ensures { result ≡ count_by (λ c. is_waiting c.progress) candidates.now }
{
    candidates
        .iter()
        .filter(|one| one.progress.is_waiting())
        .count()
}

pub(crate) fn any_busy(candidates: &[Candidate]) -> bool
    ensures { result ≡ list_any (λ c. is_busy c.progress) candidates.now }
{
    candidates.iter().any(|one| one.progress.is_busy())
}

pub(crate) fn any_tried(candidates: &[Candidate]) -> bool
    ensures { result ≡ list_any (λ c. is_tried c.progress) candidates.now }
{
    candidates.iter().any(|one| one.progress.is_tried())
}

pub(crate) fn waiting_try(candidates: &[Candidate], channel: u64, id: u16) -> Option<Try>
    ensures { result ≡ option_and_then (λ c. try_in c.progress)
        (find (λ c. waits_as channel id c.progress) candidates.now) }
{
    match waiting_as(candidates, channel, id) {
        Some(candidate) => try_in(&candidate.progress),
        None => None,
    }
}

pub(crate) fn try_in(progress: &Progress) -> Option<Try>
    ensures { result ≡ try_in progress.now }
{
    match progress {
        Progress::Waiting(tried) => Some(*tried),
        _ => None,
    }
}

// ---- late tries that are picked

pub(crate) fn late_at(late: &[LateTry], channel: u64, id: u16) -> Option<LateTry>
    ensures { result ≡ find (λ l. is_try channel id l.tried) late.now }
{
    late.iter().copied().find(|one| one.tried.is(channel, id))
}

pub(crate) fn late_try(late: &[LateTry], channel: u64, id: u16) -> Option<Try>
    ensures { result ≡ option_map (λ l. l.tried) (find (λ l. is_try channel id l.tried) late.now) }
{
    match late_at(late, channel, id) {
        Some(one) => Some(one.tried),
        None => None,
    }
}

pub(crate) fn any_failed(late: &[LateTry]) -> bool
    ensures { result ≡ list_any (λ l. l.has_failed) late.now }
{
    late.iter().any(|one| one.has_failed)
}

pub(crate) fn any_failed_by(late: &[LateTry], now: u64) -> bool
    ensures { result ≡ list_any (has_failed_by now) late.now }
{
    late.iter().any(|one| one.has_failed_by(now))
}

pub(crate) fn not_sent_as(
    late: &Vec<LateTry>,
    channel: u64,
    id: u16,
) -> Result<Vec<LateTry>, AllocError>
    ensures { IfOk result (λ v. v.items ≡ filter (λ l. not (is_try channel id l.tried)) late.now.items) }
{
    let alloc = *late.allocator();
    late.iter()
        .copied()
        .filter(|one| !one.tried.is(channel, id))
        .collect(alloc)
}

pub(crate) fn not_failed_by(late: &Vec<LateTry>, now: u64) -> Result<Vec<LateTry>, AllocError>
    ensures { IfOk result (λ v. v.items ≡ filter (λ l. not (has_failed_by now l)) late.now.items) }
{
    let alloc = *late.allocator();
    late.iter()
        .copied()
        .filter(|one| !one.has_failed_by(now))
        .collect(alloc)
}

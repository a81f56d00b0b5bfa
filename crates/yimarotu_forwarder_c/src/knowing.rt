//! What a forwarder knows: how long it may wait, what it did, and what it holds.
ghost use Rattle.std.specs.Prelude.{◌≡◌};
ghost use Rattle.yimarotu_forwarder_c.specs.Calls.{AsksOpen};
ghost use Rattle.yimarotu_forwarder_c.specs.Knowing.{AreCounts, IsWait, counts_of, no_counts, no_wait, wait_of};
ghost use Rattle.yimarotu_forwarder_c.specs.declared.status.Status.TheVariants as status;

use crate::forwarders::{YimarotuForwarder, put, take};
use crate::status::Status;
use std::alloc::Global;
use yimarotu_driven_forwarder::DrivenForwarder;

/// How long a program may wait.
#[repr(C)]
#[derive(Drop)]
pub struct YimarotuWaits {
    /// The number of a status.
    pub status: u8,
    /// Whether time ends something.
    pub has_deadline: bool,
    /// For how many milliseconds it ends nothing; 0 where there is no such time.
    pub milliseconds: u64,
}

/// Tells for how many milliseconds from a moment on time ends nothing.
#[unsafe(no_mangle)]
pub extern "C" fn yimarotu_forwarder_wait(
    alloc: Global,
    forwarder: &mut YimarotuForwarder,
    moment: u64,
) -> YimarotuWaits
    ensures { AsksOpen (IsWait moment) (no_wait status.Closed) forwarder.old.inside.value result
        forwarder.new.inside.value }
{
    let Some(inside) = take(alloc, forwarder) else {
        return no_wait(Status::Closed);
    };
    let wait = wait(&inside, moment);
    put(forwarder, inside);
    wait
}

fn wait(forwarder: &DrivenForwarder, moment: u64) -> YimarotuWaits
    ensures { IsWait moment forwarder.now result }
{
    wait_of(forwarder.next_deadline(), moment)
}

fn wait_of(deadline: Option<u64>, moment: u64) -> YimarotuWaits
    ensures { result ≡ wait_of deadline moment }
{
    match deadline {
        Some(deadline) => YimarotuWaits {
            status: Status::Ok.number(),
            has_deadline: true,
            milliseconds: deadline.saturating_sub(moment),
        },
        None => no_wait(Status::Ok),
    }
}

fn no_wait(status: Status) -> YimarotuWaits
    ensures { result ≡ no_wait status }
{
    YimarotuWaits {
        status: status.number(),
        has_deadline: false,
        milliseconds: 0,
    }
}

/// What a forwarder did and holds.
#[repr(C)]
#[derive(Drop)]
pub struct YimarotuForwarderCounts {
    /// The number of a status.
    pub status: u8,
    /// Octets that were a query.
    pub queries: u64,
    /// Queries that were told out of what is kept.
    pub from_cache: u64,
    /// Queries that were told out of local data, or that asked for all types.
    pub local: u64,
    /// Queries that were told at once that the look-up fails.
    pub failures_told: u64,
    /// Queries that were refused.
    pub refused: u64,
    /// Queries that have no reply.
    pub dropped: u64,
    /// Queries that waited for what servers say.
    pub waited: u64,
    /// Look-ups that nobody waited for as they began.
    pub prefetched: u64,
    /// Messages that were to be sent to servers.
    pub sent: u64,
    /// Queries that wait.
    pub waiting: u64,
    /// Replies that are kept, current or not.
    pub entries: u64,
    /// How many octets they weigh.
    pub octets: u64,
}

/// Tells what a forwarder did and holds.
#[unsafe(no_mangle)]
pub extern "C" fn yimarotu_forwarder_statistics(
    alloc: Global,
    forwarder: &mut YimarotuForwarder,
) -> YimarotuForwarderCounts
    ensures { AsksOpen AreCounts (no_counts status.Closed) forwarder.old.inside.value result
        forwarder.new.inside.value }
{
    let Some(inside) = take(alloc, forwarder) else {
        return no_counts(Status::Closed);
    };
    let counts = counts_of(&inside);
    put(forwarder, inside);
    counts
}

fn counts_of(forwarder: &DrivenForwarder) -> YimarotuForwarderCounts
    ensures { result ≡ counts_of forwarder.now }
{
    let counts = forwarder.counts();
    YimarotuForwarderCounts {
        status: Status::Ok.number(),
        queries: counts.queries,
        from_cache: counts.from_cache,
        local: counts.local,
        failures_told: counts.failures_told,
        refused: counts.refused,
        dropped: counts.dropped,
        waited: counts.waited,
        prefetched: counts.prefetched,
        sent: forwarder.sent(),
        waiting: forwarder.waiting(),
        entries: forwarder.cache_len(),
        octets: forwarder.cache_octets(),
    }
}

fn no_counts(status: Status) -> YimarotuForwarderCounts
    ensures { result ≡ no_counts status }
{
    YimarotuForwarderCounts {
        status: status.number(),
        queries: 0,
        from_cache: 0,
        local: 0,
        failures_told: 0,
        refused: 0,
        dropped: 0,
        waited: 0,
        prefetched: 0,
        sent: 0,
        waiting: 0,
        entries: 0,
        octets: 0,
    }
}

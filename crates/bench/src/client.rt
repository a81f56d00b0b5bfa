//! Look-ups of a client: hits, a question, a chain of aliases, and a long response. Beside each, what its upstream
//! takes alone, or the same where the caller sends each question.
ghost use Rattle.std.specs.Prelude.{◌<◌};

use crate::measure::{Stopwatch, Subject};
use crate::samples::{Numbered, address, list, response};
use hickory_proto_core::{
    DnsHandle, DnsRequest, DnsRequestOptions, DnsResponse, Name, NetError, Outcome, Query, RData,
    TableHandle,
};
use hickory_resolver::{CachingClient, Lookup, Progress};
use std::alloc::Global;
use std::rt::Clock;

// How many batches a round has.
const BATCHES: u64 = 2_000;

// How many look-ups a batch of hits has.
const HITS: u32 = 100;

// Who sends the questions of a look-up.
#[derive(Clone, Copy, Drop)]
enum Sender {
    // The client.
    Client,
    // The caller, who feeds the client what came back.
    Caller,
    // The caller, with no client.
    Alone,
}

/// Times look-ups, and prints a row for each.
pub fn print_times<R: Clock + Print>(
    alloc: Global,
    watch: &mut Stopwatch<'_, R>,
) -> anyhow::Result<()> {
    let rows = ["look-up by three aliases", "bare: its four responses"];
    print_pair(alloc, watch, rows, Sender::Alone, [3, 1, 1])?;
    let rows = [
        "look-up of 1,000 answers, a record",
        "bare: its response, a record",
    ];
    print_pair(alloc, watch, rows, Sender::Alone, [0, 1_000, 1])?;
    let rows = ["a look-up that is a hit", "the same, by `start`"];
    print_pair(alloc, watch, rows, Sender::Caller, [0, 1, HITS])?;
    let rows = ["a look-up of one question", "the same, by `resume`"];
    print_pair(alloc, watch, rows, Sender::Caller, [0, 1, 1])?;
    let rows = ["by three aliases", "the same, by `resume`"];
    print_pair(alloc, watch, rows, Sender::Caller, [3, 1, 1])
}

// So many look-ups a batch by so many aliases to so many addresses: sent by the client, and otherwise. More than one a
// batch are hits. The figures are for an address.
fn print_pair<R: Clock + Print>(
    alloc: Global,
    watch: &mut Stopwatch<'_, R>,
    [look_up, other]: [&str; 2],
    sender: Sender,
    [aliases, addresses, lookups]: [u32; 3],
) -> anyhow::Result<()> {
    let aliases = u64::from(aliases);
    let client = CachingClient::new(alloc, 100, handle_of(alloc, aliases, addresses)?, true);
    let mut subject = LookUps {
        sender: Sender::Client,
        client,
        upstream: handle_of(alloc, aliases, addresses)?,
        requests: list(alloc, aliases.saturating_add(1))?,
        are_hits: lookups > 1,
    };
    print_both(
        watch,
        [look_up, other],
        &mut subject,
        sender,
        addresses,
        lookups,
    )
}

fn print_both<R: Clock + Print>(
    watch: &mut Stopwatch<'_, R>,
    [look_up, other]: [&str; 2],
    subject: &mut LookUps,
    sender: Sender,
    addresses: u32,
    lookups: u32,
) -> anyhow::Result<()> {
    let units = BATCHES
        .saturating_mul(u64::from(addresses))
        .saturating_mul(u64::from(lookups));
    let units = units.max(1);
    watch.print_best(look_up, subject, BATCHES, lookups as usize, units)?;
    subject.sender = sender;
    watch.print_best(other, subject, BATCHES, lookups as usize, units)
}

// Look-ups of the first host. Where they are no hits, a batch begins with an empty cache.
#[derive(Drop)]
struct LookUps {
    sender: Sender,
    client: CachingClient<TableHandle>,
    upstream: TableHandle,
    requests: Vec<DnsRequest>,
    are_hits: bool,
}

impl Subject for LookUps {
    fn prepare(&mut self) -> Result<(), NetError> {
        if !self.are_hits {
            self.client.clear_cache();
        }
        Ok(())
    }

    fn operate(&mut self, _i: usize) -> Result<u64, NetError> {
        if let Sender::Alone = self.sender {
            return self.send_each();
        }
        let Some(first) = self.requests.first() else {
            return Ok(0);
        };
        let query = first.query.clone()?;
        let found = match self.sender {
            Sender::Client => self.client.lookup(query, DnsRequestOptions::default(), 0),
            _ => look_up(&mut self.client, &mut self.upstream, query),
        };
        Ok(found?.answers().len() as u64)
    }
}

impl LookUps {
    fn send_each(&mut self) -> Result<u64, NetError> {
        let mut answers: u64 = 0;
        for request in &self.requests {
            let response = self.upstream.send(request)?;
            answers = answers.wrapping_add(response.message().answers.len() as u64);
        }
        Ok(answers)
    }
}

fn look_up(
    client: &mut CachingClient<TableHandle>,
    upstream: &mut TableHandle,
    query: Query,
) -> Result<Lookup, NetError> {
    let mut progress = client.start(query, 0);
    for _ in 0..8 {
        match progress {
            Progress::Waiting(waiting) => {
                let request = DnsRequest {
                    query: waiting.question().clone()?,
                    options: DnsRequestOptions::default(),
                };
                progress = client.resume(waiting, upstream.send(&request));
            }
            Progress::Done(found) => return found,
        }
    }
    Err(NetError::NoOutcome)
}

// Asks a host.
impl Numbered for DnsRequest {
    fn of(alloc: Global, number: u64) -> Result<DnsRequest, NetError> {
        let (query, options) = (Query::of(alloc, number)?, DnsRequestOptions::default());
        Ok(DnsRequest { query, options })
    }
}

// Each host but the last is an alias of the next, and the last has so many addresses.
fn handle_of(alloc: Global, aliases: u64, addresses: u32) -> Result<TableHandle, NetError> {
    let mut outcomes = list(alloc, aliases)?;
    outcomes.push(outcome(alloc, aliases, &address(), addresses)?)?;
    TableHandle::new(outcomes)
}

// That a host is an alias of the next.
impl Numbered for (Query, Outcome) {
    fn of(alloc: Global, number: u64) -> Result<(Query, Outcome), NetError> {
        let target = RData::CNAME(Name::of(alloc, number.wrapping_add(1))?);
        outcome(alloc, number, &target, 1)
    }
}

// A host's question, and a response to it with so many answers of these data.
fn outcome(
    alloc: Global,
    number: u64,
    rdata: &RData,
    answers: u32,
) -> Result<(Query, Outcome), NetError> {
    let query = Query::of(alloc, number)?;
    let message = response(alloc, &query, 60, rdata, u64::from(answers))?;
    Ok((query, Ok(DnsResponse::from_message(message))))
}

//! What the pool costs, in nanoseconds and octets: a question and its reply, beside one message written and read; a tick
//! while 10,000 questions wait; and the memory of each of these.
use crate::setup::{Pool, Setup, usual_options};
use crate::words::whole;
use anyhow::Context;
use hickory_proto_core::{DnsRequestOptions, Name, Query, RecordType};
use hickory_proto_wire::WireMessage;
use hickory_resolver_pool::{Action, DnssecOptions, NameServerPool, PoolLimits, PoolServer};
use std::alloc::{AllocError, Global};
use std::fs;
use std::hash::BuildHasherDefault;
use std::rt::{Clock, Files};
use std::time::Instant;

const ROUNDS: u64 = 5;

const QUESTIONS: u64 = 10_000;

// An answer to the question of a message: a pointer to its name, A, IN, a minute, four octets.
const RECORD: [u8; 16] = [192, 12, 0, 1, 0, 1, 0, 0, 0, 60, 0, 4, 192, 0, 2, 80];

/// Prints a line for each.
pub fn print_times<R: AllocGlobal + Clock + Files + Print>(
    rt: &R,
    alloc: Global,
) -> anyhow::Result<()> {
    let names = names_of(alloc)?;
    let done = print_names(rt, alloc, &names);
    drop(names);
    done
}

fn print_names<R: AllocGlobal + Clock + Files + Print>(
    rt: &R,
    alloc: Global,
    names: &[Name],
) -> anyhow::Result<()> {
    let mut ask = u64::MAX;
    let mut wire = u64::MAX;
    for _ in 0..ROUNDS {
        ask = ask.min(time_questions(rt, alloc, names)?);
        wire = wire.min(time_messages(rt, alloc, names)?);
    }
    println!(rt; "to ask and to believe a reply            {ask:>10} ns")?;
    println!(rt; "to write and to read the same message    {wire:>10} ns")?;
    print_waiting(rt, alloc, names)
}

fn names_of(alloc: Global) -> anyhow::Result<Vec<Name>> {
    let mut names = Vec::new(alloc);
    let done = push_names(alloc, &mut names);
    whole(done, names)
}

fn push_names(alloc: Global, names: &mut Vec<Name>) -> anyhow::Result<()> {
    for number in 0..QUESTIONS {
        let text = format!(in alloc; "host{number:05}.example.com.")?;
        names.push(Name::from_ascii(alloc, &text)?)?;
    }
    Ok(())
}

// A pool with room for all questions at once, without a server.
fn pool_of(alloc: Global) -> Pool {
    let mut limits = PoolLimits::default();
    limits.transactions = QUESTIONS as usize;
    limits.channels = 2 * QUESTIONS as usize;
    let hasher = BuildHasherDefault::new();
    NameServerPool::new(alloc, usual_options(alloc), limits, [0; 32], hasher)
}

// One server.
fn set_server(alloc: Global, pool: &mut Pool) -> anyhow::Result<()> {
    let mut setup = Setup::new(alloc);
    let done = add_server(alloc, &mut setup, pool);
    drop(setup);
    done
}

fn add_server(alloc: Global, setup: &mut Setup, pool: &mut Pool) -> anyhow::Result<()> {
    setup.take(alloc, "server a 192.0.2.1 udp tcp trusted")?;
    let servers = setup.take_servers(alloc);
    let done = with_servers(pool, &servers);
    drop(servers);
    done
}

fn with_servers(pool: &mut Pool, servers: &[PoolServer]) -> anyhow::Result<()> {
    match pool.set_servers(0, servers) {
        Ok(()) => Ok(()),
        Err(_) => Err(anyhow::anyhow!("no servers")),
    }
}

const OPTIONS: DnsRequestOptions = DnsRequestOptions {
    recursion_desired: true,
    use_edns: false,
    edns_payload_len: 1232,
    case_randomization: false,
};

const DNSSEC: DnssecOptions = DnssecOptions {
    dnssec_ok: false,
    checking_disabled: false,
    authentic_data: false,
};

// Asks for the addresses of a name; the message that is sent is left in `sent`.
fn ask(pool: &mut Pool, name: &Name, sent: &mut Vec<u8>) -> anyhow::Result<()> {
    let query = Query::query(name.clone()?, RecordType::A);
    pool.ask(0, query, OPTIONS, DNSSEC, 0)?;
    for _ in 0..u64::MAX {
        if !keep_next(pool, sent)? {
            break;
        }
    }
    Ok(())
}

// Whether there was something to be done; what is sent is kept.
fn keep_next(pool: &mut Pool, sent: &mut Vec<u8>) -> anyhow::Result<bool> {
    let action = pool.next_action()?;
    let done = keep_sent(sent, &action);
    drop(action);
    Ok(done?)
}

fn keep_sent(sent: &mut Vec<u8>, action: &Option<Action>) -> Result<bool, AllocError> {
    if let Some(Action::Send(message)) = action {
        sent.clear();
        sent.extend_from_slice(&message.octets)?;
    }
    Ok(action.is_some())
}

// The reply to a message comes on a channel; how many actions come of it.
fn answer(pool: &mut Pool, channel: u64, octets: &mut Vec<u8>) -> anyhow::Result<u64> {
    turn(octets);
    octets.extend_from_slice(&RECORD)?;
    pool.came(channel, octets, 1)?;
    let mut count: u64 = 0;
    for _ in 0..u64::MAX {
        if !acts(pool)? {
            break;
        }
        count = count.saturating_add(1);
    }
    Ok(count)
}

// Whether there was something to be done.
fn acts(pool: &mut Pool) -> Result<bool, AllocError> {
    let action = pool.next_action()?;
    let is_some = action.is_some();
    drop(action);
    Ok(is_some)
}

// A query is a response of a server that recurses, with one answer.
fn turn(octets: &mut [u8]) {
    for (place, octet) in [(2, 129), (3, 128), (7, 1)] {
        if let Some(old) = octets.get_mut(place) {
            *old = octet;
        }
    }
}

// Nanoseconds of one question with its reply, of 10,000 one after another.
fn time_questions<R: Clock>(rt: &R, alloc: Global, names: &[Name]) -> anyhow::Result<u64> {
    let mut pool = pool_of(alloc);
    let done = time_names(rt, alloc, &mut pool, names);
    drop(pool);
    done
}

fn time_names<R: Clock>(
    rt: &R,
    alloc: Global,
    pool: &mut Pool,
    names: &[Name],
) -> anyhow::Result<u64> {
    set_server(alloc, pool)?;
    let start = Instant::now(rt)?;
    let seen = ask_each(alloc, pool, names)?;
    let elapsed = start.elapsed(rt)?.as_nanos();
    anyhow::ensure!(
        seen >= 2 * QUESTIONS,
        "each is over, and its channel closed"
    );
    Ok(each_of(elapsed))
}

// How many actions come of all of them.
fn ask_each(alloc: Global, pool: &mut Pool, names: &[Name]) -> anyhow::Result<u64> {
    let mut sent = Vec::new(alloc);
    let mut seen: u64 = 0;
    let mut channel: u64 = 0;
    for name in names {
        ask(pool, name, &mut sent)?;
        seen = seen.saturating_add(answer(pool, channel, &mut sent)?);
        channel = channel.saturating_add(1);
    }
    Ok(seen)
}

// What one of them takes, where all of them take so much.
fn each_of(all: u128) -> u64 {
    u64::try_from(all / u128::from(QUESTIONS)).unwrap_or(u64::MAX)
}

// Nanoseconds of a message of the same form that is written and read.
fn time_messages<R: Clock>(rt: &R, alloc: Global, names: &[Name]) -> anyhow::Result<u64> {
    let message = one_reply(alloc, names.first().context("a name")?)?;
    let start = Instant::now(rt)?;
    let seen = write_each(alloc, &message)?;
    let elapsed = start.elapsed(rt)?.as_nanos();
    anyhow::ensure!(seen >= 12 * QUESTIONS, "each is a message");
    Ok(each_of(elapsed))
}

// A reply to the message that is sent for a name.
fn one_reply(alloc: Global, name: &Name) -> anyhow::Result<Vec<u8>> {
    let mut pool = pool_of(alloc);
    let done = one_sent(alloc, &mut pool, name);
    drop(pool);
    done
}

fn one_sent(alloc: Global, pool: &mut Pool, name: &Name) -> anyhow::Result<Vec<u8>> {
    set_server(alloc, pool)?;
    let mut sent = Vec::new(alloc);
    ask(pool, name, &mut sent)?;
    turn(&mut sent);
    sent.extend_from_slice(&RECORD)?;
    Ok(sent)
}

// How many octets all of them have.
fn write_each(alloc: Global, message: &[u8]) -> anyhow::Result<u64> {
    let mut seen: u64 = 0;
    for _ in 0..QUESTIONS {
        seen = seen.saturating_add(len_written(alloc, message)?);
    }
    Ok(seen)
}

// A message is read and written again.
fn len_written(alloc: Global, message: &[u8]) -> anyhow::Result<u64> {
    let read = WireMessage::from_wire(alloc, message)?;
    let written = read.to_wire(alloc, 65535);
    drop(read);
    Ok(written?.len() as u64)
}

// A tick while 10,000 questions wait and none is due, and the memory of each with its message.
fn print_waiting<R: AllocGlobal + Clock + Files + Print>(
    rt: &R,
    alloc: Global,
    names: &[Name],
) -> anyhow::Result<()> {
    let mut pool = pool_of(alloc);
    let done = print_waiting_in(rt, alloc, &mut pool, names);
    drop(pool);
    done
}

fn print_waiting_in<R: AllocGlobal + Clock + Files + Print>(
    rt: &R,
    alloc: Global,
    pool: &mut Pool,
    names: &[Name],
) -> anyhow::Result<()> {
    set_server(alloc, pool)?;
    let octets = memory_of_each(rt, alloc, pool, names)?;
    let elapsed = time_ticks(rt, pool)?;
    println!(rt; "a tick while 10,000 wait                 {elapsed:>10} ns")?;
    println!(rt; "memory of one of 10,000 that wait        {octets:>10} octets")?;
    Ok(())
}

fn memory_of_each<R: AllocGlobal + Files>(
    rt: &R,
    alloc: Global,
    pool: &mut Pool,
    names: &[Name],
) -> anyhow::Result<u64> {
    let mut sent = Vec::new(alloc);
    let before = resident(rt)?;
    for name in names {
        ask(pool, name, &mut sent)?;
    }
    Ok(resident(rt)?.saturating_sub(before) / QUESTIONS)
}

// Nanoseconds of a tick.
fn time_ticks<R: Clock>(rt: &R, pool: &mut Pool) -> anyhow::Result<u64> {
    let start = Instant::now(rt)?;
    for _ in 0..QUESTIONS {
        pool.tick(1);
        anyhow::ensure!(!acts(pool)?, "none is due");
    }
    Ok(each_of(start.elapsed(rt)?.as_nanos()))
}

// The octets of memory that this process has, as Linux tells them: the second number of this file, in pages of 4,096.
fn resident<R: AllocGlobal + Files>(rt: &R) -> anyhow::Result<u64> {
    let text = fs::read_to_string(rt, "/proc/self/statm")?;
    let pages = text.split_whitespace().nth(1).context("two numbers")?;
    Ok(pages.parse::<u64>()?.saturating_mul(4096))
}

//! The cache at some sizes, and what its parts cost alone.
ghost use Rattle.std.specs.Prelude.{◌<◌};

use crate::measure::{Stopwatch, Subject};
use crate::samples::{BATCH, DAY, Numbered, OPERATIONS, address, place, response};
use hickory_proto_core::{Message, NetError, Query};
use hickory_resolver_cache::ResponseCache;
use hickory_resolver_lookup::TtlConfig;
use indexmap::IndexMap;
use std::alloc::Global;
use std::collections::BTreeMap;
use std::hash::{BuildHasher, BuildHasherDefault, FoldHasher};
use std::rt::Clock;

// The sizes that are timed: how many entries there are.
const SIZES: [u64; 3] = [100, 10_000, 1_000_000];

// How many stores with eviction a batch has where each answer is stored when it has come in, as in a program: the
// memory of what leaves goes to the answers that come in next, and the C library has a few pieces of each size at hand.
const FEW: usize = 2;

// What is timed: with a question of the batch, with an answer to it, or with neither.
#[derive(Clone, Copy, Drop)]
enum Operation {
    Hit,
    Miss,
    StoreClamped,
    Clear,
    StoreInTurn,
    StoreByHundreds,
    Hash,
    Find,
    Copy,
    Exchange,
    Turn,
}

// The rows in the order in which they are timed: stores with eviction leave other entries in the cache.
static ROWS: [(&str, Operation); 11] = [
    ("hit", Operation::Hit),
    ("miss", Operation::Miss),
    ("clamped store", Operation::StoreClamped),
    ("clear_query", Operation::Clear),
    ("store with eviction", Operation::StoreInTurn),
    ("the same, by the hundred", Operation::StoreByHundreds),
    ("bare: hash a question", Operation::Hash),
    ("bare: look it up in a map", Operation::Find),
    ("bare: copy its message", Operation::Copy),
    ("bare: a message in, another out", Operation::Exchange),
    ("bare: a turn in, the first out", Operation::Turn),
];

/// Prints a row for each operation: what it takes at each size, and how many times the first the last is.
pub fn print_times<R: Clock + Print>(
    rt: &R,
    alloc: Global,
    watch: &mut Stopwatch<'_, R>,
) -> anyhow::Result<()> {
    let [first, middle, last] = SIZES;
    println!(rt;
        "{:<36}{first:>10}{middle:>10}{last:>10}{:>12}",
        "entries", "last/first"
    )?;
    let first = figures(alloc, watch, SIZES[0])?;
    let middle = figures(alloc, watch, SIZES[1])?;
    let last = figures(alloc, watch, SIZES[2])?;
    let figures = first.iter().zip(&middle).zip(&last);
    for ((what, _), ((first, middle), last)) in ROWS.iter().zip(figures) {
        let tenths = last.saturating_mul(10) / (*first).max(1);
        let (whole, tenth) = (tenths / 10, tenths % 10);
        println!(rt; "{what:<36}{first:>10}{middle:>10}{last:>10}{whole:>10}.{tenth}")?;
    }
    Ok(())
}

// Nanoseconds of each operation at one size.
fn figures<R: Clock>(
    alloc: Global,
    watch: &mut Stopwatch<'_, R>,
    size: u64,
) -> anyhow::Result<Vec<u64>>
    requires { 0 < size }
{
    let mut subject = BySize {
        alloc,
        size,
        operation: Operation::Hit,
        batch: BATCH,
        visited: 0,
        stored: 0,
        asked: Vec::new(alloc),
        answers: Vec::new(alloc),
        cache: ResponseCache::new(alloc, size, TtlConfig::default(alloc)),
        map: IndexMap::new(alloc),
        messages: Vec::new(alloc),
        turns: BTreeMap::new(alloc),
    };
    figures_of(alloc, watch, &mut subject)
}

fn figures_of<R: Clock>(
    alloc: Global,
    watch: &mut Stopwatch<'_, R>,
    subject: &mut BySize,
) -> anyhow::Result<Vec<u64>> {
    subject.fill()?;
    let mut figures = Vec::new(alloc);
    for (_, operation) in &ROWS {
        // (what was cleared last is stored again)
        subject.prepare()?;
        subject.operation = *operation;
        subject.batch = match operation {
            Operation::StoreInTurn => FEW,
            _ => BATCH,
        };
        let (batches, batch) = (OPERATIONS / subject.batch as u64, subject.batch);
        figures.push(watch.best(subject, batches, batch, OPERATIONS)?)?;
    }
    Ok(figures)
}

// A cache that is full with an answer for each of the first hosts, and its parts, as full. Hosts are visited again and
// again, far from one another.
#[derive(Drop)]
struct BySize {
    alloc: Global,
    size: u64,
    operation: Operation,
    batch: usize,
    visited: u64,
    stored: u64,
    // the questions of a batch, and responses to them
    asked: Vec<Query>,
    answers: Vec<(Query, Message)>,
    cache: ResponseCache,
    map: IndexMap<Query, u64>,
    messages: Vec<Message>,
    turns: BTreeMap<(u64, u64), u64>,
    ghost some: { 0 < size },
}

impl Subject for BySize {
    fn prepare(&mut self) -> Result<(), NetError> {
        match self.operation {
            Operation::Copy | Operation::Turn => Ok(()),
            Operation::Hit | Operation::Miss | Operation::Hash | Operation::Find => self.ask(),
            Operation::Clear => {
                self.store_again()?;
                self.ask()
            }
            _ => {
                self.ask()?;
                self.answer()
            }
        }
    }

    fn operate(&mut self, i: usize) -> Result<u64, NetError> {
        match self.operation {
            Operation::Copy => self.copy(),
            Operation::Turn => self.take_turn(),
            Operation::StoreClamped
            | Operation::StoreInTurn
            | Operation::StoreByHundreds
            | Operation::Exchange => self.take_answer(),
            _ => self.take_question(i),
        }
    }
}

impl BySize {
    fn fill(&mut self) -> Result<(), NetError> {
        for number in 0..self.size {
            let query = Query::of(self.alloc, number)?;
            let message = answer(self.alloc, &query, number)?;
            self.map.insert(query.clone()?, number)?;
            self.messages.push(message.clone()?)?;
            self.cache.insert(query, Ok(message), 0)?;
            self.put_turn()?;
        }
        Ok(())
    }

    // Asks the questions of the next batch.
    fn ask(&mut self) -> Result<(), NetError> {
        let (first, count) = match self.operation {
            Operation::StoreInTurn | Operation::StoreByHundreds => (self.size, u64::MAX),
            Operation::Miss | Operation::Exchange => (self.size, self.size),
            _ => (0, self.size),
        };
        self.asked.clear();
        for _ in 0..self.batch {
            let number = first.wrapping_add(place(self.visited, count));
            self.asked.push(Query::of(self.alloc, number)?)?;
            self.visited = self.visited.wrapping_add(1);
        }
        Ok(())
    }

    // Answers the questions of the batch.
    fn answer(&mut self) -> Result<(), NetError> {
        self.answers.clear();
        for (i, query) in self.asked.iter().enumerate() {
            let message = answer(self.alloc, query, self.visited.wrapping_add(i as u64))?;
            self.answers.push((query.clone()?, message))?;
        }
        Ok(())
    }

    // What the batch before has cleared is stored again.
    fn store_again(&mut self) -> Result<(), NetError> {
        self.answer()?;
        for _ in 0..BATCH {
            self.take_answer()?;
        }
        Ok(())
    }

    // A hit is asked for a second after all was stored.
    fn take_question(&mut self, i: usize) -> Result<u64, NetError> {
        let Some(query) = self.asked.get(i) else {
            return Ok(0);
        };
        match self.operation {
            Operation::Hash => Ok(BuildHasherDefault::<FoldHasher>::new().hash_one(query)),
            Operation::Find => Ok(self.map.get(query).copied().unwrap_or(0)),
            Operation::Clear => {
                self.cache.clear_query(query);
                Ok(self.cache.len() as u64)
            }
            _ => match self.cache.get(query, 1) {
                Some(hit) => Ok(hit?.answers.len() as u64),
                None => Ok(0),
            },
        }
    }

    // Stores for questions that the full cache does not have move the moment on by a day while as many are stored as
    // there is room for.
    fn take_answer(&mut self) -> Result<u64, NetError> {
        let Some((query, message)) = self.answers.pop() else {
            return Ok(0);
        };
        match self.operation {
            Operation::Exchange => return Ok(self.exchange(message)),
            Operation::StoreInTurn | Operation::StoreByHundreds => {
                let now = self.stored.wrapping_mul(DAY) / self.size;
                self.stored = self.stored.wrapping_add(1);
                self.cache.insert(query, Ok(message), now)?;
            }
            _ => self.cache.upsert_clamped_ttl(query, Ok(message), 0, true)?,
        }
        Ok(self.cache.len() as u64)
    }

    // The place of the next message.
    fn next_place(&mut self) -> usize {
        let at = place(self.visited, self.size) as usize;
        self.visited = self.visited.wrapping_add(1);
        at
    }

    fn copy(&mut self) -> Result<u64, NetError> {
        let at = self.next_place();
        match self.messages.get(at) {
            Some(message) => Ok(message.clone()?.answers.len() as u64),
            None => Ok(0),
        }
    }

    // A message comes in the place of another, which is let go of.
    fn exchange(&mut self, message: Message) -> u64 {
        let at = self.next_place();
        match self.messages.get_mut(at) {
            Some(place) => std::mem::replace(place, message).answers.len() as u64,
            None => 0,
        }
    }

    fn put_turn(&mut self) -> Result<(), NetError> {
        let deadline = self.visited.wrapping_add(place(self.visited, DAY));
        self.turns.insert((deadline, self.visited), self.visited)?;
        self.visited = self.visited.wrapping_add(1);
        Ok(())
    }

    // A turn comes into the order, of which the first then leaves.
    fn take_turn(&mut self) -> Result<u64, NetError> {
        self.put_turn()?;
        match self.turns.pop_first() {
            Some((turn, _)) => Ok(turn.0),
            None => Ok(0),
        }
    }
}

// A response with one address, whose TTL follows from the number: from a minute to a day, in no order.
fn answer(alloc: Global, query: &Query, number: u64) -> Result<Message, NetError> {
    let ttl = 60 + place(number, 86_340) as u32;
    response(alloc, query, ttl, &address(), 1)
}

//! The time that an operation takes.
ghost use Rattle.std.specs.Prelude.{◌<◌};

use hickory_proto_core::NetError;
use std::rt::Clock;
use std::time::Instant;

const ROUNDS: u32 = 5;

/// What is timed.
pub trait Subject {
    /// Makes ready for a batch. Its time does not count.
    fn prepare(&mut self) -> Result<(), NetError> {
        Ok(())
    }

    /// The `i`th operation of a batch. Gives a number that depends on what it came to.
    fn operate(&mut self, i: usize) -> Result<u64, NetError>;
}

/// Times subjects by a clock, and keeps a sum of what they computed.
#[derive(Drop)]
pub struct Stopwatch<'a, R> {
    pub rt: &'a R,
    pub seen: u64,
}

impl<'a, R: Clock + Print> Stopwatch<'a, R> {
    /// Prints the nanoseconds of a unit, as `best` has them.
    pub fn print_best<S: Subject>(
        &mut self,
        what: &str,
        subject: &mut S,
        batches: u64,
        batch: usize,
        units: u64,
    ) -> anyhow::Result<()>
        requires { 0 < units }
    {
        let best = self.best(subject, batches, batch, units)?;
        println!(self.rt; "{what:<36}{best:>10}")?;
        Ok(())
    }
}

impl<'a, R: Clock> Stopwatch<'a, R> {
    /// Nanoseconds a unit in the best of five rounds, each of so many batches of so many operations, which are so
    /// many units together.
    pub fn best<S: Subject>(
        &mut self,
        subject: &mut S,
        batches: u64,
        batch: usize,
        units: u64,
    ) -> anyhow::Result<u64>
        requires { 0 < units }
    {
        let mut best = u64::MAX;
        for _ in 0..ROUNDS {
            let mut round: u64 = 0;
            for _ in 0..batches {
                subject.prepare()?;
                round = round.saturating_add(self.batch(subject, batch)?);
            }
            best = best.min(round);
        }
        Ok(best / units)
    }

    // Nanoseconds of a batch.
    fn batch<S: Subject>(&mut self, subject: &mut S, batch: usize) -> anyhow::Result<u64> {
        let mut seen = self.seen;
        let start = Instant::now(self.rt)?;
        for i in 0..batch {
            seen = seen.wrapping_add(subject.operate(i)?);
        }
        let elapsed = start.elapsed(self.rt)?;
        self.seen = seen;
        Ok(u64::try_from(elapsed.as_nanos()).unwrap_or(u64::MAX))
    }
}

//! A case: a pool, and what was sent and asked.
use crate::counts::Counts;
use crate::replies::{OpenReply, add_record};
use crate::sent::SentMessages;
use crate::setup::{Pool, Setup, usual_options};
use crate::words::{numbered, put};
use anyhow::Context;
use hickory_resolver_config::ResolverOpts;
use hickory_resolver_pool::Asker;
use replay_script::Section;
use std::alloc::Global;

/// What the next pool is opened with, the pool, what was sent, who asked, a reply whose records are still to come, and
/// what is counted and shown.
#[derive(Drop)]
pub struct Case {
    pub setup: Setup,
    pub pool: Pool,
    pub sent: SentMessages,
    pub askers: Vec<Asker>,
    pub reply: Option<OpenReply>,
    pub counts: Counts,
    pub is_counting: bool,
    pub shows_octets: bool,
}

impl Case {
    /// A pool without servers.
    pub fn new(alloc: Global) -> Case {
        let setup = Setup::new(alloc);
        let pool = setup.open(alloc, usual_options(alloc));
        Case {
            setup,
            pool,
            sent: SentMessages::new(alloc),
            askers: Vec::new(alloc),
            reply: None,
            counts: Counts::new(alloc),
            is_counting: false,
            shows_octets: false,
        }
    }

    /// Takes a line, which is printed.
    pub fn take(&mut self, rt: &impl Print, alloc: Global, line: &str) -> anyhow::Result<()> {
        if let Some(section) = section_of(line) {
            println!(rt; "{line}")?;
            return self.add_record(alloc, section, line);
        }
        self.finish(rt, alloc)?;
        println!(rt; "{line}")?;
        if let Some(text) = line.strip_prefix("times ") {
            return self.repeat(rt, alloc, text);
        }
        self.take_line(rt, alloc, line)
    }

    fn take_line(&mut self, rt: &impl Print, alloc: Global, line: &str) -> anyhow::Result<()> {
        if let Some(text) = line.strip_prefix("at ") {
            let (moment, event) = text.split_once(' ').context("a moment and an event")?;
            return self.happen(rt, alloc, moment.parse::<u64>()?, event);
        }
        if line == "pool" {
            return self.open(rt, alloc);
        }
        if line.ends_with(" octets") {
            self.shows_octets = line == "show octets";
        }
        self.setup.take(alloc, line)?;
        Ok(())
    }

    // A new pool, whose group of number 0 has the servers that were said.
    fn open(&mut self, rt: &impl Print, alloc: Global) -> anyhow::Result<()> {
        let options = self.setup.options.clone()?;
        self.begin(alloc, options);
        self.set_servers(rt, alloc, 0)
    }

    fn begin(&mut self, alloc: Global, options: ResolverOpts) {
        put(&mut self.pool, self.setup.open(alloc, options));
        put(&mut self.sent, SentMessages::new(alloc));
        self.askers.clear();
    }

    // The same line so many times, each with its number; what comes out is counted.
    fn repeat(&mut self, rt: &impl Print, alloc: Global, text: &str) -> anyhow::Result<()> {
        let (count, line) = text.split_once(' ').context("a count and a line")?;
        let count = count.parse::<u64>()?;
        self.is_counting = true;
        for number in 0..count {
            let line = numbered(alloc, line, number)?;
            self.take_whole(rt, alloc, &line)?;
        }
        self.show_counts(rt, alloc)
    }

    // A line with what comes of it.
    fn take_whole(&mut self, rt: &impl Print, alloc: Global, line: &str) -> anyhow::Result<()> {
        self.take_line(rt, alloc, line)?;
        self.finish(rt, alloc)
    }

    fn add_record(&mut self, alloc: Global, section: Section, line: &str) -> anyhow::Result<()> {
        match &mut self.reply {
            Some(reply) => add_record(reply.section(section), alloc, line),
            None => Ok(()),
        }
    }
}

fn section_of(line: &str) -> Option<Section> {
    if line.starts_with("answer ") {
        return Some(Section::Answer);
    }
    if line.starts_with("authority ") {
        return Some(Section::Authority);
    }
    if line.starts_with("additional ") {
        return Some(Section::Additional);
    }
    None
}

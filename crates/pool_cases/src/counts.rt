//! How often each thing came out.
use std::alloc::Global;
use std::io;

/// How often something was opened, sent and closed, what was overloaded, and what was over, by its words.
#[derive(Drop)]
pub struct Counts {
    pub opened: u64,
    pub sent: u64,
    pub closed: u64,
    pub overloaded: u64,
    over: Vec<OverCount>,
}

// So many askers were told this.
#[derive(Drop)]
struct OverCount {
    words: String,
    askers: u64,
}

impl Counts {
    /// Nothing.
    pub fn new(alloc: Global) -> Counts {
        Counts {
            opened: 0,
            sent: 0,
            closed: 0,
            overloaded: 0,
            over: Vec::new(alloc),
        }
    }

    /// So many askers are told this.
    pub fn add_over(&mut self, words: String, askers: u64) -> anyhow::Result<()> {
        for one in self.over.iter_mut() {
            if one.words == words {
                one.askers = one.askers.saturating_add(askers);
                return Ok(());
            }
        }
        self.over.push(OverCount { words, askers })?;
        Ok(())
    }

    /// A line for each that is not 0.
    pub fn show(&self, rt: &impl Print) -> anyhow::Result<()> {
        show_count(rt, "overloaded", self.overloaded)?;
        show_count(rt, "close", self.closed)?;
        for one in &self.over {
            show_over(rt, one)?;
        }
        show_count(rt, "open", self.opened)?;
        show_count(rt, "send", self.sent)?;
        Ok(())
    }
}

fn show_count(rt: &impl Print, word: &str, count: u64) -> io::Result<()> {
    if count == 0 {
        return Ok(());
    }
    println!(rt; "  {word} {count}")
}

fn show_over(rt: &impl Print, one: &OverCount) -> io::Result<()> {
    let askers = one.askers;
    let words = one.words.as_str();
    println!(rt; "  over {askers} {words}")
}

//! What happens to a pool.
use crate::case::Case;
use crate::replies::{OpenReply, reply_to};
use crate::words::{behind, has_word, number_at, number_behind, octets_of, put, word_at};
use anyhow::Context;
use hickory_proto_core::{Name, Query, RecordType};
use hickory_resolver_pool::{Asked, DnssecOptions, Failure, ServersError};
use std::alloc::Global;
use std::io;

impl Case {
    /// Does what happens at a moment.
    pub fn happen(
        &mut self,
        rt: &impl Print,
        alloc: Global,
        moment: u64,
        event: &str,
    ) -> anyhow::Result<()> {
        if let Some(text) = event.strip_prefix("reply ") {
            return self.open_reply(rt, alloc, moment, text);
        }
        if let Some(text) = event.strip_prefix("ask ") {
            self.ask(rt, alloc, moment, text)?;
        } else if let Some(text) = event.strip_prefix("servers ") {
            self.set_servers(rt, alloc, number_at(text, 0)?)?;
        } else if event == "tick" {
            self.pool.tick(moment);
        } else {
            self.happen_to_channel(alloc, moment, event)?;
        }
        self.act(rt, alloc)
    }

    fn happen_to_channel(&mut self, alloc: Global, moment: u64, event: &str) -> anyhow::Result<()> {
        let number = number_at(event, 1)?;
        if event.starts_with("failed ") {
            self.pool.failed(number, failure_of(event), moment)?;
        } else if event.starts_with("forget ") {
            self.forget(number)?;
        } else if event.starts_with("rest ") {
            self.deliver(number, moment, u64::MAX)?;
        } else if let Some(text) = event.strip_prefix("octets ") {
            let digits = text.trim_start_matches(word_at(text, 0)?);
            let octets = octets_of(alloc, digits)?;
            self.pool.came(number, &octets, moment)?;
        }
        Ok(())
    }

    // GROUP NAME TYPE, and of `do`, `cd` and `ad` those that are asked.
    fn ask(
        &mut self,
        rt: &impl Print,
        alloc: Global,
        moment: u64,
        text: &str,
    ) -> anyhow::Result<()> {
        let group = number_at(text, 0)?;
        let kind = RecordType::from_word(word_at(text, 2)?).context("a type")?;
        let name = Name::from_ascii(alloc, word_at(text, 1)?)?;
        let dnssec = dnssec_of(text);
        let asked = self.ask_pool(group, Query::query(name, kind), dnssec, moment);
        self.show_asked(rt, asked)
    }

    // Nothing where the question is refused.
    fn ask_pool(
        &mut self,
        group: u64,
        query: Query,
        dnssec: DnssecOptions,
        moment: u64,
    ) -> Option<Asked> {
        let request = self.setup.request;
        self.pool.ask(group, query, request, dnssec, moment).ok()
    }

    fn show_asked(&mut self, rt: &impl Print, asked: Option<Asked>) -> anyhow::Result<()> {
        match asked {
            Some(Asked::Asker(asker)) => {
                self.askers.push(asker)?;
                self.show_words(rt, "asker", asker.number)
            }
            Some(Asked::Overloaded) => self.show_overloaded(rt),
            Some(Asked::NoServers) => self.show_word(rt, "no servers"),
            None => self.show_word(rt, "refused"),
        }
    }

    fn show_overloaded(&mut self, rt: &impl Print) -> anyhow::Result<()> {
        if self.is_counting {
            self.counts.overloaded = self.counts.overloaded.saturating_add(1);
        }
        self.show_word(rt, "overloaded")
    }

    fn show_words(&self, rt: &impl Print, word: &str, number: u64) -> anyhow::Result<()> {
        if !self.is_counting {
            println!(rt; "  {word} {number}")?;
        }
        Ok(())
    }

    fn show_word(&self, rt: &impl Print, word: &str) -> anyhow::Result<()> {
        if !self.is_counting {
            println!(rt; "  {word}")?;
        }
        Ok(())
    }

    /// The servers of a group are those that were said since the last list.
    pub fn set_servers(
        &mut self,
        rt: &impl Print,
        alloc: Global,
        group: u64,
    ) -> anyhow::Result<()> {
        let servers = self.setup.take_servers(alloc);
        let fault = fault_of(self.pool.set_servers(group, &servers));
        drop(servers);
        show_fault(rt, fault)?;
        Ok(())
    }

    // The asker of a place among those that were given.
    fn forget(&mut self, place: u64) -> anyhow::Result<()> {
        let asker = self.askers.get(place as usize).copied();
        let asker = asker.context("an asker")?;
        self.pool.forget(&asker)?;
        Ok(())
    }

    // CHANNEL, `as=` where it answers what was sent on another, `of=` where it answers not the last message, `later`
    // where nothing is done before more happens, and what is wrong with it.
    fn open_reply(
        &mut self,
        rt: &impl Print,
        alloc: Global,
        moment: u64,
        text: &str,
    ) -> anyhow::Result<()> {
        let channel = number_at(text, 0)?;
        let asked_on = number_behind(text, "as=", channel)?;
        let place = match behind(text, "of=") {
            Some(digits) => Some(digits.parse::<u64>()?),
            None => None,
        };
        match self.sent.message(asked_on, place) {
            None => return self.show_word(rt, "nothing was sent there"),
            Some(sent) => {
                let reply = reply_to(alloc, channel, moment, text, sent)?;
                put(&mut self.reply, Some(reply));
            }
        }
        self.twist_reply(alloc)
    }

    // What is said of the reply is done to it.
    fn twist_reply(&mut self, alloc: Global) -> anyhow::Result<()> {
        match &mut self.reply {
            Some(reply) => reply.twist(alloc),
            None => Ok(()),
        }
    }

    /// The reply that is open, if one is, comes.
    pub fn finish(&mut self, rt: &impl Print, alloc: Global) -> anyhow::Result<()> {
        if self.reply.is_none() {
            return Ok(());
        }
        let reply = self.reply.take();
        let is_later = is_later(&reply);
        let done = self.finish_reply(alloc, &reply);
        drop(reply);
        done?;
        if is_later {
            return Ok(());
        }
        self.act(rt, alloc)
    }

    fn finish_reply(&mut self, alloc: Global, reply: &Option<OpenReply>) -> anyhow::Result<()> {
        match reply {
            Some(reply) => self.send_reply(alloc, reply),
            None => Ok(()),
        }
    }

    fn send_reply(&mut self, alloc: Global, reply: &OpenReply) -> anyhow::Result<()> {
        self.hold_reply(alloc, reply)?;
        if has_word(&reply.words, "hold") {
            return Ok(());
        }
        self.come(reply)
    }

    fn hold_reply(&mut self, alloc: Global, reply: &OpenReply) -> anyhow::Result<()> {
        let octets = reply.octets(alloc)?;
        self.sent.hold(reply.channel, &octets)
    }

    // What is held comes: all at once, in pieces of so many octets, or the first so many and then the rest; without the
    // last ones, where some are to be kept.
    fn come(&mut self, reply: &OpenReply) -> anyhow::Result<()> {
        let (channel, moment) = (reply.channel, reply.moment);
        let words = reply.words.as_str();
        if let Some(digits) = behind(words, "first=") {
            self.deliver(channel, moment, digits.parse::<u64>()?)?;
        }
        if let Some(digits) = behind(words, "keep=") {
            let kept = digits.parse::<u64>()?;
            let len = self.sent.held.len() as u64;
            return self.deliver(channel, moment, len.saturating_sub(kept));
        }
        let piece = number_behind(words, "pieces=", u64::MAX)?;
        for _ in 0..65538 {
            if self.sent.held.is_empty() {
                break;
            }
            self.deliver(channel, moment, piece)?;
        }
        Ok(())
    }

    // The first of the octets that are held come.
    fn deliver(&mut self, channel: u64, moment: u64, count: u64) -> anyhow::Result<()> {
        let count = (self.sent.held.len() as u64).min(count) as usize;
        self.pool.came(channel, &self.sent.held[..count], moment)?;
        self.sent.held.drain(..count);
        Ok(())
    }
}

fn is_later(reply: &Option<OpenReply>) -> bool {
    match reply {
        Some(reply) => has_word(&reply.words, "later"),
        None => false,
    }
}

fn failure_of(event: &str) -> Failure {
    if has_word(event, "refused") {
        return Failure::Refused;
    }
    if has_word(event, "unreachable") {
        return Failure::Unreachable;
    }
    if has_word(event, "local") {
        return Failure::Local;
    }
    Failure::Closed
}

fn dnssec_of(text: &str) -> DnssecOptions {
    DnssecOptions {
        dnssec_ok: has_word(text, "do"),
        checking_disabled: has_word(text, "cd"),
        authentic_data: has_word(text, "ad"),
    }
}

fn fault_of(set: Result<(), ServersError>) -> Option<ServersError> {
    set.err()
}

fn show_fault(rt: &impl Print, fault: Option<ServersError>) -> io::Result<()> {
    match fault {
        Some(ServersError::FixedPort(place)) => {
            println!(rt; "  refused: the port of server {place} is fixed")
        }
        Some(ServersError::OutOfMemory) => println!(rt; "  out of memory"),
        None => Ok(()),
    }
}

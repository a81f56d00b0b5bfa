//! What comes out of a pool, one action after another.
use crate::case::Case;
use crate::counts::Counts;
use crate::outcomes::words_of;
use crate::shown::{show_message, show_next, show_opening, show_over};
use crate::words::put;
use hickory_resolver_pool::{Action, ChannelKind, Opening, Over, Sent};
use std::alloc::Global;

impl Case {
    /// Does all that is left to be done, and prints it with the next moment, or counts it.
    pub fn act(&mut self, rt: &impl Print, alloc: Global) -> anyhow::Result<()> {
        for _ in 0..u64::MAX {
            if !self.act_once(rt, alloc)? {
                break;
            }
        }
        if !self.is_counting {
            show_next(rt, self.pool.next_deadline())?;
        }
        Ok(())
    }

    fn act_once(&mut self, rt: &impl Print, alloc: Global) -> anyhow::Result<bool> {
        let action = self.pool.next_action()?;
        let done = self.note_next(rt, alloc, &action);
        drop(action);
        done
    }

    // Whether there was something to be done.
    fn note_next(
        &mut self,
        rt: &impl Print,
        alloc: Global,
        action: &Option<Action>,
    ) -> anyhow::Result<bool> {
        match action {
            Some(action) => self.note(rt, alloc, action)?,
            None => return Ok(false),
        }
        Ok(true)
    }

    fn note(&mut self, rt: &impl Print, alloc: Global, action: &Action) -> anyhow::Result<()> {
        match action {
            Action::Open(opening) => self.note_opening(rt, opening),
            Action::Send(sent) => self.note_sent(rt, alloc, sent),
            Action::Close(channel) => self.note_close(rt, *channel),
            Action::Over(over) => self.note_over(rt, alloc, over),
            Action::Continue => Ok(()),
        }
    }

    fn note_opening(&mut self, rt: &impl Print, opening: &Opening) -> anyhow::Result<()> {
        if opening.kind == ChannelKind::Stream {
            self.sent.add_stream(opening.channel)?;
        }
        if self.is_counting {
            self.counts.opened = self.counts.opened.saturating_add(1);
            return Ok(());
        }
        show_opening(rt, &self.setup.names, opening)
    }

    fn note_sent(&mut self, rt: &impl Print, alloc: Global, sent: &Sent) -> anyhow::Result<()> {
        self.sent.add(alloc, sent.channel, &sent.octets)?;
        if self.is_counting {
            self.counts.sent = self.counts.sent.saturating_add(1);
            return Ok(());
        }
        let octets = self.sent.message_in(sent.channel, &sent.octets);
        show_message(rt, alloc, sent.channel, octets)?;
        if self.shows_octets {
            let digits = hex::encode(alloc, &sent.octets)?;
            println!(rt; "    octets {digits}")?;
        }
        Ok(())
    }

    fn note_close(&mut self, rt: &impl Print, channel: u64) -> anyhow::Result<()> {
        if self.is_counting {
            self.counts.closed = self.counts.closed.saturating_add(1);
            return Ok(());
        }
        println!(rt; "  close {channel}")?;
        Ok(())
    }

    fn note_over(&mut self, rt: &impl Print, alloc: Global, over: &Over) -> anyhow::Result<()> {
        if self.is_counting {
            let words = words_of(alloc, over)?;
            return self.counts.add_over(words, over.askers().len() as u64);
        }
        show_over(rt, alloc, over)
    }

    /// Prints what was counted, and the next moment; counts no more.
    pub fn show_counts(&mut self, rt: &impl Print, alloc: Global) -> anyhow::Result<()> {
        self.is_counting = false;
        self.counts.show(rt)?;
        put(&mut self.counts, Counts::new(alloc));
        show_next(rt, self.pool.next_deadline())?;
        Ok(())
    }
}

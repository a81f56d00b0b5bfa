//! What was sent on the channels of a case.
use std::alloc::Global;

/// A message that was sent on a channel.
#[derive(Drop)]
struct SentMessage {
    channel: u64,
    octets: Vec<u8>,
}

/// What was sent on each channel, which of these are streams, and octets that are held back.
#[derive(Drop)]
pub struct SentMessages {
    messages: Vec<SentMessage>,
    streams: Vec<u64>,
    pub held: Vec<u8>,
    held_on: u64,
}

impl SentMessages {
    /// Nothing was sent.
    pub fn new(alloc: Global) -> SentMessages {
        SentMessages {
            messages: Vec::new(alloc),
            streams: Vec::new(alloc),
            held: Vec::new(alloc),
            held_on: 0,
        }
    }

    /// A stream is opened.
    pub fn add_stream(&mut self, channel: u64) -> anyhow::Result<()> {
        self.streams.push(channel)?;
        Ok(())
    }

    /// Whether a channel is a stream.
    pub fn is_stream(&self, channel: u64) -> bool {
        self.streams.contains(&channel)
    }

    /// The message in octets that are written on a channel: on a stream its length stands before it.
    pub fn message_in<'a>(&self, channel: u64, octets: &'a [u8]) -> &'a [u8] {
        match octets {
            [_, _, rest @ ..] if self.is_stream(channel) => rest,
            _ => octets,
        }
    }

    /// Octets are written on a channel.
    pub fn add(&mut self, alloc: Global, channel: u64, octets: &[u8]) -> anyhow::Result<()> {
        let octets = Vec::from_slice(alloc, self.message_in(channel, octets))?;
        self.messages.push(SentMessage { channel, octets })?;
        Ok(())
    }

    /// Octets that come on a channel are held behind those that are; what was held of another one is dropped.
    pub fn hold(&mut self, channel: u64, octets: &[u8]) -> anyhow::Result<()> {
        if self.held_on != channel {
            self.held.clear();
            self.held_on = channel;
        }
        if self.is_stream(channel) {
            let len = octets.len().min(65535) as u16;
            self.held.extend_from_slice(&len.to_be_bytes())?;
        }
        self.held.extend_from_slice(octets)?;
        Ok(())
    }

    /// The message of a place among those that were sent on a channel, or the last one.
    pub fn message(&self, channel: u64, place: Option<u64>) -> Option<&[u8]> {
        let found = match place {
            Some(place) => self.message_at(channel, place),
            None => self.last_message(channel),
        };
        found.map(|message| message.octets.as_slice())
    }

    fn message_at(&self, channel: u64, place: u64) -> Option<&SentMessage> {
        self.messages
            .iter()
            .filter(|message| message.channel == channel)
            .nth(place as usize)
    }

    fn last_message(&self, channel: u64) -> Option<&SentMessage> {
        self.messages
            .iter()
            .rev()
            .find(|message| message.channel == channel)
    }
}

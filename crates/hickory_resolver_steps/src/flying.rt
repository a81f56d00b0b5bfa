//! A question in flight, and its tries that are on a channel.
use hickory_resolver_channels::{ChannelKind, Channels, Draws};
use hickory_resolver_flights::Flight;
use std::marker::Model;

/// A try that was sent.
#[derive(Clone, Copy, Debug, PartialEq, Eq)]
pub struct SentTry {
    /// The channel.
    pub channel: u64,
    /// The number of its message.
    pub id: u16,
}

/// The number of a transaction, the moment at which something is done for it, and up to when what is sent then is
/// waited for.
#[derive(Clone, Copy, Debug, PartialEq, Eq)]
pub struct Step {
    /// The number.
    pub transaction: u64,
    /// The moment.
    pub moment: u64,
    /// Up to when.
    pub until: u64,
}

/// A question in flight, and its tries that are on a channel.
#[derive(Drop)]
pub struct Flying {
    /// The question.
    pub flight: Flight,
    /// Its tries that are on a channel, the oldest first.
    pub tries: Vec<SentTry>,
}

impl Model for Flying {
    ghost use Rattle.hickory_resolver_steps.specs.Steps.{FlyingState};

    ghost Value = { FlyingState };

    ghost view = { λ f. record { flight = f.flight; tries = f.tries.items } };
}

/// What all questions share.
#[derive(Drop)]
pub struct Shared {
    /// The channels.
    pub channels: Channels,
    /// What is drawn by chance.
    pub draws: Draws,
}

impl Model for Shared {
    ghost use Rattle.hickory_resolver_steps.specs.Steps.{SharedState};

    ghost Value = { SharedState };

    ghost view = { λ s. record { channels = s.channels; draws = s.draws } };
}

/// What is sent.
#[derive(Drop)]
pub struct Sending {
    /// The channel.
    pub channel: u64,
    /// The place of the server.
    pub place: usize,
    /// What goes over the channel.
    pub kind: ChannelKind,
    /// Whether it is to be opened first.
    pub is_new: bool,
    /// The octets of the message.
    pub octets: Vec<u8>,
}

impl Model for Sending {
    ghost use Rattle.hickory_resolver_steps.specs.Steps.{SendingValue};

    ghost Value = { SendingValue };

    ghost view = { λ s. record {
      channel = s.channel;
      place = s.place;
      kind = s.kind;
      is_new = s.is_new;
      octets = s.octets.items;
    } };
}

//! One channel.
ghost use Rattle.std.specs.Prelude.{◌≡◌, None};
ghost use Rattle.hickory_resolver_channels.specs.Channels.{new_channel, most_on, takes_try, with_one_more, with_one_less};

/// What goes over a channel.
#[derive(Clone, Copy, Debug, PartialEq, Eq)]
pub enum ChannelKind {
    /// The messages of one try, each in a datagram.
    Datagram,
    /// The messages of many tries on a stream.
    Stream,
}

/// How many channels there may be, and how many tries on a stream.
#[derive(Clone, Copy, Debug, PartialEq, Eq)]
pub struct ChannelLimits {
    /// How many channels are open at the most.
    pub channels: usize,
    /// How many tries are on a stream at the most; at least one may be.
    pub tries_on_stream: usize,
}

/// A channel that is open.
#[derive(Clone, Copy, Debug, PartialEq, Eq)]
pub struct Channel {
    /// The number of its server.
    pub server: u64,
    /// What goes over it.
    pub kind: ChannelKind,
    /// How many tries are on it.
    pub tries: usize,
    /// Up to when it is kept, where it is a stream on which there was a try and is none.
    pub idle_until: Option<u64>,
}

impl Channel {
    // One to a server, without a try.
    pub(crate) fn new(server: u64, kind: ChannelKind) -> Channel
        ensures { result ≡ new_channel server kind }
    {
        Channel {
            server,
            kind,
            tries: 0,
            idle_until: None,
        }
    }

    // How many tries may be on it.
    fn most(&self, limits: &ChannelLimits) -> usize
        ensures { result ≡ most_on limits.now self.now.kind }
    {
        match self.kind {
            ChannelKind::Datagram => 1,
            ChannelKind::Stream => limits.tries_on_stream.max(1),
        }
    }

    // Whether one try more may be on it.
    pub(crate) fn takes_try(&self, limits: &ChannelLimits) -> bool
        ensures { result ≡ takes_try limits.now self.now }
    {
        self.tries < self.most(limits)
    }

    // The same with one try more.
    pub(crate) fn with_one_more(&self) -> Channel
        ensures { result ≡ with_one_more self.now }
    {
        Channel {
            server: self.server,
            kind: self.kind,
            tries: self.tries.saturating_add(1),
            idle_until: None,
        }
    }

    // The same with one try less, and kept up to a moment where that was the last.
    pub(crate) fn with_one_less(&self, until: Option<u64>) -> Channel
        ensures { result ≡ with_one_less until self.now }
    {
        Channel {
            server: self.server,
            kind: self.kind,
            tries: self.tries.saturating_sub(1),
            idle_until: until,
        }
    }
}

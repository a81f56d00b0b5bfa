//! How a call ended, as a number.
ghost use Rattle.std.specs.Prelude.{◌≡◌};
ghost use Rattle.yimarotu_forwarder_c.specs.Statuses.{number_of};

/// How a call ended. The numbers are those of sessions.
#[derive(Clone, Copy, Debug, PartialEq, Eq)]
pub enum Status {
    /// All went well.
    Ok,
    /// A line of the settings has a fault.
    Script,
    /// No memory was left.
    NoMemory,
    /// A line of the hosts is not UTF-8.
    Hosts,
    /// The room of the caller is too small: nothing was written.
    Room,
    /// The forwarder is not open.
    Closed,
    /// The forwarder is open already.
    IsOpen,
    /// A reply is to be told first.
    Waits,
    /// The text is no name.
    Text,
    /// No failure has this number, or no address this length.
    Kind,
    /// The seed has not 32 octets.
    Seed,
}

impl Status {
    /// The number of the status.
    pub fn number(self) -> u8
        ensures { result ≡ number_of self }
    {
        match self {
            Status::Ok => 0,
            Status::Script => 1,
            Status::NoMemory => 3,
            Status::Hosts => 4,
            Status::Room => 5,
            Status::Closed => 8,
            Status::IsOpen => 9,
            Status::Waits => 12,
            Status::Text => 14,
            Status::Kind => 15,
            Status::Seed => 18,
        }
    }
}

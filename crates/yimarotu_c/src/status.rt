//! How a call ended, as a number.
ghost use Rattle.std.specs.Prelude.{◌≡◌};
ghost use Rattle.yimarotu_c.specs.Statuses.{number_of};

/// How a call ended. A script or hosts that are refused have the numbers that the program of a replay ends with.
#[derive(Clone, Copy, Debug, PartialEq, Eq)]
pub enum Status {
    /// All went well.
    Ok,
    /// A line of the settings has a fault.
    Script,
    /// No memory was left.
    NoMemory,
    /// A line of the hosts is not UTF-8.
    Hosts,
    /// The room of the caller is too small: nothing was written.
    Room,
    /// The bytes are no message.
    Message,
    /// The message cannot be written.
    Unwritable,
    /// The session is not open.
    Closed,
    /// The session is open already.
    IsOpen,
    /// Another look-up has this number.
    InUse,
    /// No look-up has this number.
    NoLookup,
    /// The look-up waits.
    Waits,
    /// The look-up is done.
    Done,
    /// The name is not UTF-8.
    Text,
    /// No failure has this number.
    Kind,
    /// The session asks by itself: it is not fed.
    AsksItself,
    /// The session is fed by hand: it asks nothing.
    IsFed,
    /// The seed has not 32 octets.
    Seed,
}

impl Status {
    /// The number of the status.
    pub fn number(self) -> u8
        ensures { result ≡ number_of self }
    {
        match self {
            Status::Ok => 0,
            Status::Script => 1,
            Status::NoMemory => 3,
            Status::Hosts => 4,
            Status::Room => 5,
            Status::Message => 6,
            Status::Unwritable => 7,
            Status::Closed => 8,
            Status::IsOpen => 9,
            Status::InUse => 10,
            Status::NoLookup => 11,
            Status::Waits => 12,
            Status::Done => 13,
            Status::Text => 14,
            Status::Kind => 15,
            Status::AsksItself => 16,
            Status::IsFed => 17,
            Status::Seed => 18,
        }
    }
}

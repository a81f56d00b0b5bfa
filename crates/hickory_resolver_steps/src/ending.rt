//! Tries that nothing waits for any more.

/// A try is off its channel.
#[derive(Clone, Copy, Debug, PartialEq, Eq)]
pub struct Ended {
    /// The channel.
    pub channel: u64,
    /// Whether that closed it.
    pub is_closed: bool,
}

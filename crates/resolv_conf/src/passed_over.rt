//! What was passed over.

/// A line, or one of its words, that was passed over.
#[derive(Clone, Copy, Debug, PartialEq, Eq)]
pub struct PassedOver {
    /// The number of the line. The first one is 1.
    pub line: usize,
    /// Why it was passed over.
    pub reason: Reason,
}

/// Why a line, or one of its words, was passed over.
#[derive(Clone, Copy, Debug, PartialEq, Eq)]
pub enum Reason {
    /// The line begins with no keyword that is read here: `sortlist` and what resolv.conf(5) does not name, a keyword
    /// behind a blank or with other letters.
    UnknownKeyword,
    /// Nothing stands behind the keyword.
    NoValue,
    /// The word behind `nameserver` is no address.
    NotAnAddress,
    /// A word behind `search`, or the one behind `domain`, is no domain name.
    NotAName,
    /// A later line `search` or `domain` counts in the place of this one.
    Replaced,
    /// The option has no effect here: `no-reload`, `debug` and others.
    UnknownOption,
    /// No digit stands behind the colon of an option that has a number.
    NotANumber,
}

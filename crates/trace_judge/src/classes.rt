//! What is found.

/// What can be said of something that was told.
#[derive(Clone, Copy, Debug, PartialEq, Eq)]
pub enum Class {
    /// It was received, and with the TTL that was told reaches this many milliseconds past the latest moment that a
    /// reception of it allows.
    Stale(u64),
    /// It is stale, this many milliseconds after it ran out, told with a TTL of 30 seconds at the most, and its
    /// question was asked since and not answered: so a resolver may serve it (RFC 8767).
    ServedStale(u64),
    /// Its TTL is above each that it was received with.
    Raised,
    /// It stands behind an alias that had run out.
    AliasOutlives,
    /// A denial was received, and as told reaches this many milliseconds past the latest moment that a reception of it
    /// allows (RFC 2308, section 5).
    NegativeOutlives(u64),
    /// It was not received, and stands in a zone that the resolver answers for by itself.
    Synthesized,
    /// It was not received, and the trace had been going for a day.
    NeverReceived,
    /// It was not received, in the first day of the trace.
    Unseen,
    /// A response that was received and whose question was not open: it does not count.
    Unasked,
}

/// The sections of a response that records stand in (RFC 1035, section 4.1).
#[derive(Clone, Copy, Debug, PartialEq, Eq)]
pub enum Section {
    Answer,
    Authority,
    Additional,
}

/// Where in a response it is.
#[derive(Clone, Copy, Debug, PartialEq, Eq)]
pub enum Place {
    /// A record, by its section and its number in it, counted from 0.
    Record(Section, usize),
    /// The response as a whole.
    Response,
}

/// A class, and what it is said of.
#[derive(Clone, Copy, Debug, PartialEq, Eq)]
pub struct Finding {
    pub place: Place,
    pub class: Class,
}

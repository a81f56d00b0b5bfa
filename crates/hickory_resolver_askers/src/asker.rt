//! An asker, and where there is place for what it asks.

/// One who asks.
#[derive(Clone, Copy, Debug, PartialEq, Eq)]
pub struct Asker {
    /// The number of the transaction.
    pub transaction: u64,
    /// The number of the asker, which no other has.
    pub number: u64,
}

/// How many transactions there may be.
#[derive(Clone, Copy, Debug, PartialEq, Eq)]
pub struct AskerLimits {
    /// How many are in flight at the most.
    pub transactions: usize,
    /// How many wait for a place at the most.
    pub waiting: usize,
}

/// Where there is place for a transaction that begins.
#[derive(Clone, Copy, Debug, PartialEq, Eq)]
pub enum Place {
    /// It is in flight at once.
    InFlight,
    /// It waits for a place.
    Waits,
    /// There is none.
    Overloaded,
}

/// What is left once an asker is forgotten.
#[derive(Clone, Copy, Debug, PartialEq, Eq)]
pub enum Forgotten {
    /// There was no such asker.
    Nobody,
    /// Others ask the same still.
    OthersAsk,
    /// It was the last, and the transaction is over.
    Last,
}

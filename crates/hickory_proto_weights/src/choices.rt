//! The numbers of which weights are made, in octets. They are those of a machine of 64 bits and of glibc, which adds 8
//! octets to each piece of memory, rounds it up to a multiple of 16, and gives none of less than 32.

/// A label or a string of data beside its own octets: 24 for its place in a list, and 24 for its piece of memory, the
/// smallest of which is 32 with room for 24 octets.
pub const PIECE: u64 = 48;

/// A name beside its labels: the piece that its copies share, with the canonical form in it, by which they are compared.
/// A name that was just read has none; it is counted all the same, so that long lists of records or questions of the root,
/// whose name has no labels, weigh more than twice what they take.
pub const NAME: u64 = 112;

/// A question beside its name: 48 for its place in a list, and some of the room that lists keep free.
pub const QUERY: u64 = 64;

/// A record beside its names and octets: 160 for its place in a list, and half as much again, since a list that is full
/// becomes twice as long, and is never shorter than four records.
pub const RECORD: u64 = 240;

/// A name server of a negative answer beside its records: what its addresses are shared by, which is a piece of memory.
pub const SERVER: u64 = 96;

/// A negative answer beside its question and its records: the piece of memory that it stands in.
pub const NEGATIVE: u64 = 288;

/// An entry beside the name of its question and the outcome: its place in the map of entries, which holds the form of
/// the outcome and the moments, its place in the map of deadlines, and the room that both keep free.
pub const ENTRY: u64 = 480;

//! Numbers that are choices.

/// How many names are on the way of one reply at the most, the asked one and the last with them. Servers that people
/// use stop after some ten aliases.
pub const MOST_NAMES: usize = 17;

// (ten aliases, and the asked name)
const _: () = prove!(11 <= MOST_NAMES);

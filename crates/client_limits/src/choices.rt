//! Numbers that are choices, each with its reason.

/// How many clients wait in all at the most: as many as there are questions in flight at the most.
pub const MOST_CLIENTS: usize = 4_096;

/// How many of one address wait at the most: a 16th of all, so that one address does not keep the others out. A router
/// asks for a whole house, and its questions come in bursts.
pub const MOST_OF_ADDRESS: usize = 256;

/// How many wait for one question at the most: a 16th of all. More than these ask the same at once where a name is
/// asked for that is not answered.
pub const MOST_OF_QUESTION: usize = 256;

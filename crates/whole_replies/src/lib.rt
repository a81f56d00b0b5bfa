//! What is kept of a believed reply, so that a client can be told the whole of it again: the aliases from the asked name,
//! the records at their end, and what denies these; put together where aliases lead on. No input or output.
#![tactic(auto)]

pub mod choices;
pub mod kept_reply;
mod received;
mod signatures;
mod ways;

pub use kept_reply::KeptReply;

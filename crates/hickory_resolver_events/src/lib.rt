//! Events over one resolver: calls in any order, each fed with what came back to its questions.
#![tactic(auto)]

pub mod events;

pub use events::{Event, EventReply, play};

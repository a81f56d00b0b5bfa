//! The journal of a conversation is a script: lines that are heard one after another, and what a replay writes of what the
//! journal got.
#![tactic(auto)]

pub mod hearing;

pub use conversation::{Conversation, Heard};
pub use hearing::hear_all;

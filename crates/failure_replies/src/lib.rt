//! Replies without a look-up: those that say that one failed, with the reason (RFC 8914), and those that refuse a
//! query; as octets of their own, or in a room of the caller. No input or output.
#![tactic(auto)]

mod failure;
pub mod laws;
mod parts;
mod room;

pub use failure::{FailureReason, fail, write_failure, write_refusal};

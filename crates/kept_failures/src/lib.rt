//! Failures that are kept for a while, so that servers that fail are not asked again at once (RFC 9520). No input or
//! output, and no clock.
#![tactic(auto)]

pub mod cache;
pub mod choices;
mod failure;
pub mod laws;

pub use cache::FailureCache;
pub use failure::KeptFailure;

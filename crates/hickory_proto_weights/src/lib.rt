//! How many octets a cache takes for what it keeps. No input or output, and no memory.
#![tactic(auto)]

pub mod choices;
pub mod laws;
mod octets;
mod outcomes;
mod records;

pub use outcomes::weight_of;

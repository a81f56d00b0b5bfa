//! How many clients wait for a reply, and whether one more may wait. No input or output.
#![tactic(auto)]

pub mod choices;
mod counts;
pub mod laws;
mod limits;
mod network;

pub use counts::ClientCounts;
pub use limits::ClientLimits;
pub use network::counted_as;

//! What is known of the name servers of a group, and the order in which a round tries them. No input or output, no
//! clock and no chance: moments and places are handed in.
#![tactic(auto)]

pub mod choices;
pub mod order;
pub mod server;
pub mod servers;

pub use order::RoundStart;
pub use server::{Estimate, Server};
pub use servers::Servers;

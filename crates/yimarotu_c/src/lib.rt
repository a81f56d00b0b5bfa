//! The resolver for C, and for what speaks C: messages, sessions that are fed by hand or ask by themselves, servers of a
//! resolv.conf, and replays of scripts.
#![tactic(auto)]

pub mod addresses;
pub mod answering;
pub mod asking;
pub mod doing;
mod faults;
pub mod happening;
mod inside;
pub mod knowing;
pub mod looking_up;
pub mod opening;
mod parts;
pub mod replaying;
pub mod rewriting;
mod room;
pub mod servers;
pub mod sessions;
pub mod status;
pub mod version;

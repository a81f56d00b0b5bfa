//! What a forwarder answers without asking anybody: hosts, special names, zones that are served here, blocked names;
//! and which group of servers is asked for all else. No input or output.
#![tactic(auto)]

pub mod choices;
mod from_hosts;
pub mod laws;
pub mod local_data;
mod replies;
pub mod rules;
mod special;
pub mod told;
pub mod zones;

pub use local_data::{Decision, LocalData};
pub use rules::{Blocked, DomainRule};
pub use told::any_reply;
pub use zones::locally_served_zones;

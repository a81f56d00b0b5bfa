//! A forwarder as a program in another language holds it: opened from octets and a seed, with what the program has to
//! do next, and read anew.
#![tactic(auto)]

pub mod driven_forwarder;
mod hosts;
mod open_error;
mod opening;
mod seeds;
mod servers;
mod texts;

pub use driven_forwarder::{DrivenForwarder, QueryError};
pub use open_error::ForwarderOpenError;
pub use texts::Texts;

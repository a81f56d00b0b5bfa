//! What holds of a session with a network after every list of events and steps.
#![tactic(auto)]

pub mod laws;

//! What holds of a forwarder after every list of queries, events and steps.
#![tactic(auto)]

pub mod laws;

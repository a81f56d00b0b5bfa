//! A table of hosts: names with their addresses, the files that it is read from, and readers and writers that
//! remember whether a call of theirs failed.
#![tactic(auto)]

mod host;
pub mod hosts;
pub mod hosts_error;
mod lines;
mod owners;
mod pointers;
mod reading;
mod table;
pub mod watched;

pub use hosts::Hosts;
pub use hosts_error::HostsError;
pub use watched::Watched;

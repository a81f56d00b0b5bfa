//! A caching forwarder for C, and for what speaks C: queries of clients and events of name servers in, replies and
//! actions out.
#![tactic(auto)]

pub mod doing;
pub mod forwarders;
pub mod happening;
mod inside;
pub mod keeping;
pub mod knowing;
pub mod listing;
pub mod opening;
mod parts;
pub mod querying;
mod room;
pub mod status;

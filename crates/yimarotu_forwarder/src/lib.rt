//! A caching forwarder without input and output: queries of clients and events of name servers in, replies and actions
//! out. It keeps whole replies, for as long as each of their records may be kept, and asks servers for all else.
#![tactic(auto)]

mod answered;
mod answering;
mod cached;
mod chain_ends;
pub mod choices;
mod counting;
mod ending;
mod fetch;
mod fetches;
mod flushing;
mod forwarder;
mod hearing;
mod late;
mod leaving;
mod listing;
mod local;
mod looking_up;
mod options;
mod prefetching;
mod replying;
mod stale;
mod statistics;
mod steps;
mod telling;

pub use answered::Answered;
pub use client_limits::ClientLimits;
pub use client_requests::Client;
pub use counting::ForwarderCounts;
pub use forwarder::Forwarder;
pub use listing::CachedEntry;
pub use local_answers::{Blocked, DomainRule, LocalData};
pub use options::ForwarderOptions;
pub use steps::ForwarderAction;

//! A bounded cache of outcomes by question.
#![tactic(auto)]

mod address_answer;
mod aging;
mod entry;
mod kept;
mod octets;
mod outcome;
mod renumber;
pub mod response_cache;
mod turns;
mod weighed;

pub use response_cache::ResponseCache;

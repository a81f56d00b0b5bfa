//! A client: a cache of what an upstream answered, over the upstream.
#![tactic(auto)]

mod alias_walk;
pub mod caching_client;
pub mod client_state;
mod results;
pub mod special_use;
mod verdict;
pub mod waiting;

pub use caching_client::CachingClient;
pub use client_state::ClientState;
pub use special_use::is_special_use;
pub use waiting::{Progress, Waiting};

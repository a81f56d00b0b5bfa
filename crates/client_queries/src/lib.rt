//! What octets are that a client sends to a server, before any name is looked up, and the replies that refuse it. No
//! input or output, and no memory but for a reply.
#![tactic(auto)]

pub mod choices;
mod extras;
mod places;
pub mod query;
pub mod refusal;
mod verdict;

pub use query::{ClientEdns, ClientQuery, Refusal, Verdict, read_query};
pub use refusal::{datagram_limit, refuse};

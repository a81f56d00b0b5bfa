//! What a question in flight does with the servers of its group and the channels of a pool, one step at a time. No
//! input or output, and no clock.
#![tactic(auto)]

pub mod ending;
pub mod flying;
pub mod list;
pub mod sending;
pub mod telling;

pub use ending::Ended;
pub use flying::{Flying, Sending, SentTry, Shared, Step};
pub use list::ServerList;
pub use sending::send;
pub use telling::{Measure, Telling, expire, fail, hear};

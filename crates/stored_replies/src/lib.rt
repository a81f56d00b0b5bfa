//! Replies as a cache of whole replies keeps them: the octets of a message, and the places of its TTLs. A client is
//! told one by octets that are copied, with its own number, flags and question, and with lower TTLs; that takes no
//! memory. What it is told is what `to_wire` writes of the aged message. What is kept of a reply can be read again from
//! its octets. No input or output.
#![tactic(auto)]

mod ageing;
pub mod choices;
pub mod key;
pub mod laws;
mod places;
mod reading;
mod room;
pub mod store_error;
pub mod stored_reply;
mod storing;
mod told;

pub use key::{hash_question, is_same_question};
pub use store_error::StoreError;
pub use stored_reply::StoredReply;

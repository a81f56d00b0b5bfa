//! The requests of a forwarder's clients, under what their replies are kept, and what each is told in the end. No input
//! or output, and no clock.
#![tactic(auto)]

pub mod choices;
pub mod client;
pub mod fetch_end;
pub mod reply_key;
pub mod reply_room;
pub mod request;

pub use client::Client;
pub use fetch_end::FetchEnd;
pub use reply_key::ReplyKey;
pub use reply_room::ReplyRoom;
pub use request::{Request, WaitingRequest};

//! A question in flight, from octets to octets: the message of each try, which octets are believed as a reply to it, and
//! the reply that its transaction comes to. No input or output, and no clock.
#![tactic(auto)]

pub mod flight;
pub mod heard;
pub mod kept;
pub mod laws;

pub use flight::Flight;
pub use heard::Heard;
pub use kept::KeptReply;

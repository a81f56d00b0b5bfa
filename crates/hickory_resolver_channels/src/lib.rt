//! The channels of a pool of name servers as plain data: which are open to which server, which tries are on them, and
//! up to when one is kept on which nothing is; and what is drawn by chance. No input or output, and no clock: the
//! program around it opens and closes sockets.
#![tactic(auto)]

pub mod channel;
pub mod channels;
pub mod draws;
pub mod laws;
mod maps;

pub use channel::{Channel, ChannelKind, ChannelLimits};
pub use channels::Channels;
pub use draws::{Drawn, Draws};

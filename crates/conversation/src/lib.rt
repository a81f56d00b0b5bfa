//! A conversation with a resolver, line by line: requests go in, questions to be sent and answers come out. It does no
//! I/O: whoever writes the lines sends the questions, and writes back what came.
#![tactic(auto)]

pub mod conversation;
mod explaining;
pub mod fault;
mod file_settings;
pub mod files;
pub mod heard;
mod in_flight;
mod opening;
mod reading;
mod requests;
mod said;
mod state;
pub mod words;
mod writing;

pub use conversation::Conversation;
pub use fault::ConversationFault;
pub use heard::Heard;
pub use hickory_resolver::{Hosts, HostsError};
pub use reading::mark_of;

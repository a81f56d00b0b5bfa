//! What is on its way in a pool of name servers, as plain data: its transactions by number, the server lists of its
//! groups, what came and was not read yet, and what is to be done next. No input or output, and no clock.
#![tactic(auto)]

pub mod acting;
pub mod carrying;
pub mod choices;
pub mod doing;
pub mod entry;
pub mod groups;
pub mod inbox;
pub mod starting;
pub mod table;
pub mod tasks;
pub mod traffic;

pub use doing::Doing;
pub use entry::{Current, Entry, EntryParts, ToDo};
pub use groups::{GroupList, Groups, Sources};
pub use inbox::{CameMessage, ChannelFailure, Failure, Inbox};
pub use starting::{Did, Opening, Sent};
pub use table::Table;
pub use tasks::Task;
pub use traffic::{Outgoing, Rules, Traffic, TrafficLimits};

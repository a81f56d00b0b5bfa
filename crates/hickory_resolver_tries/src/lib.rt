//! One try at a question: the octets that are sent, which octets are believed as a reply to them, what a believed reply
//! comes to, and a stream cut into messages. No input or output, and no state of servers.
#![tactic(auto)]

pub mod belief;
pub mod chain;
pub mod head;
pub mod letters_back;
pub mod message_stream;
pub mod outcome;
pub mod pool_question;
pub mod try_message;

pub use belief::Belief;
pub use head::Head;
pub use message_stream::MessageStream;
pub use outcome::{Reply, ReplyOutcome};
pub use pool_question::{DnssecOptions, PoolQuestion, SentOpt};
pub use try_message::{TryForm, TryMessage};

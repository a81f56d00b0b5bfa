//! Replays a script against a resolver: runs its requests in order, and makes the text that tells what happened.
#![tactic(auto)]

pub mod error;
pub mod run;
pub mod text_listener;
pub mod writing;

pub use error::ReplayError;
pub use hickory_resolver::Watched;
pub use replay_script::{Request, Script, ScriptError, ScriptFault, read_script};
pub use run::{replay_text, replay_text_with_hashers};
pub use writing::{replay, replay_with_hashers};

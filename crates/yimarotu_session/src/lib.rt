//! Sessions: a resolver, and look-ups that wait or are done, each under a number. One is fed by hand, and the other
//! asks a pool of name servers by itself.
#![tactic(auto)]

pub mod ahead;
mod cache_setting;
mod file_settings;
mod going_on;
mod lookup_table;
pub mod messages;
pub mod network_lookup;
pub mod network_session;
mod network_steps;
mod numbered;
pub mod opening;
pub mod session;
pub mod session_error;
mod telling;

pub use network_session::{NetworkAction, NetworkSession};
pub use opening::OpenError;
pub use session::Session;
pub use session_error::SessionError;

//! Sessions as a program in another language holds them: one of either kind, and one with a network with what the program
//! has to do next, and with counts.
#![tactic(auto)]

mod counts;
pub mod driven_session;
pub mod held;
pub mod network_opening;
mod seeds;

pub use counts::Counts;
pub use driven_session::DrivenSession;
pub use held::Held;
pub use network_opening::NetworkOpenError;

//! One transaction as plain data: a question on its way to the servers of a group, round by round, without I/O, clock
//! and chance. It tells what is to be sent next, takes what came of it, and tells its outcome. Replies have numbers,
//! under which the caller keeps them.
#![tactic(auto)]

mod acting;
pub mod candidate;
mod changed;
pub mod choices;
mod deadlines;
mod events;
pub mod laws;
pub mod outcome;
mod picked;
pub mod settings;
pub mod table;
mod told;
pub mod transaction;

pub use candidate::{Candidate, LateTry, Made, Progress, Transport, Try, Way};
pub use outcome::Outcome;
pub use settings::Settings;
pub use transaction::{Transaction, Wanted};

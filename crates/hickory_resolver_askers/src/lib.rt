//! Who asks: askers that share a transaction, transactions in flight within a limit, and those that wait for a place.
//! Transactions and askers are numbers here. No input or output, and no clock.
#![tactic(auto)]

pub mod asker;
pub mod askers;
pub mod laws;
mod lists;
mod maps;

pub use asker::{Asker, AskerLimits, Forgotten, Place};
pub use askers::Askers;

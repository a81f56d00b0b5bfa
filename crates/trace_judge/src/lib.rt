//! A judge over a trace: what a resolver received of its upstream, and what it told its clients. It finds what the
//! resolver told that no reception allows.
#![tactic(auto)]

pub mod aliases;
pub mod asks;
pub mod classes;
pub mod denials;
pub mod denied;
pub mod event;
pub mod evidence;
pub mod facts;
pub mod gap;
pub mod gaps;
pub mod hashed;
pub mod hearing;
pub mod latest;
pub mod making;
pub mod open;
pub mod options;
pub mod owners;
pub mod receptions;
pub mod record_key;
pub mod records;
pub mod sightings;
pub mod trace;

pub use classes::{Class, Finding, Place, Section};
pub use event::{Event, Moment, Reply, Said};
pub use hearing::Judge;
pub use options::Options;
pub use synthesis::Prefix;
pub use trace::{Judged, judge};

//! Addresses that are taken out of responses: those in networks that are denied, unless they are in networks that are
//! allowed. No input or output, and no memory.
#![tactic(auto)]

pub mod answer_filter;
mod networks;

pub use answer_filter::{AnswerFilter, filter_message};
pub use networks::is_in;

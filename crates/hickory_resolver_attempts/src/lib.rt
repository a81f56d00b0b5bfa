//! What a call attempts: names one after another, of each one type of records or two; and what their results come to.
#![tactic(auto)]

pub mod results;
pub mod search;
pub mod sought;

pub use results::{attempt_result, is_out_of_memory, stops};
pub use search::attempts;
pub use sought::{Sought, Types};

//! Values by domain: the longest domain that is a name, or above it, is found. Names are octets as in a question, and
//! are equal without case. No input or output.
#![tactic(auto)]

pub mod domain_table;
pub mod laws;
mod names;

pub use domain_table::{DomainTable, Found};
pub use names::{LONGEST_LABEL, LONGEST_NAME};

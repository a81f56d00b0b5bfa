//! The look-up of a whole reply: where aliases lead on and nothing answers where they end, the name that they led to is
//! asked for too. No input or output.
#![tactic(auto)]

mod capped;
pub mod choices;
mod denied;
mod heard;
mod hints;
pub mod laws;
pub mod whole_lookup;

pub use capped::cap;
pub use denied::without_denied;
pub use heard::Heard;
pub use whole_lookup::WholeLookup;

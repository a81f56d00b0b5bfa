//! A bounded cache that a stranger cannot occupy: what was asked for again gets a second chance, and no entry is large.
//! No input or output, and no clock.
#![tactic(auto)]

mod bounds;
pub mod cache;
mod clock;
mod kept;
mod key;
pub mod laws;

pub use bounds::CacheBounds;
pub use cache::SecondChanceCache;
pub use kept::Kept;

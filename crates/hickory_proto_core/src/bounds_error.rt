//! Faults of bounds on times to live.
use thiserror::Error;

/// Why bounds on times to live were refused.
#[derive(Clone, Copy, Debug, PartialEq, Eq, Error)]
pub enum BoundsError {
    /// The least lifetime of a positive answer is above the greatest.
    #[error("positive bounds reversed")]
    PositiveReversed,
    /// The least lifetime of a negative answer is above the greatest.
    #[error("negative bounds reversed")]
    NegativeReversed,
}

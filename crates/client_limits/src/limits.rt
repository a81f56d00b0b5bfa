//! How many clients may wait.
ghost use Rattle.std.specs.Prelude.{◌≡◌};

use crate::choices::{MOST_CLIENTS, MOST_OF_ADDRESS, MOST_OF_QUESTION};

/// How many clients may wait for a reply.
#[derive(Clone, Copy, Debug, PartialEq, Eq)]
pub struct ClientLimits {
    /// In all.
    pub all: usize,
    /// Of one address, by what it counts as.
    pub of_address: usize,
    /// For one question.
    pub of_question: usize,
}

impl Default for ClientLimits {
    ghost use Rattle.std.specs.Prelude.{◌≡◌};
    ghost use Rattle.client_limits.specs.Counts.{default_limits};

    ghost is_default = { λ l. l ≡ default_limits };

    fn default() -> ClientLimits {
        ClientLimits {
            all: MOST_CLIENTS,
            of_address: MOST_OF_ADDRESS,
            of_question: MOST_OF_QUESTION,
        }
    }
}

//! What the options of a resolver say to a transaction.
ghost use Rattle.std.specs.Prelude.{◌≡◌};
ghost use Rattle.hickory_resolver_transactions.specs.Settings.{settings_of};

use crate::choices::MOST_ROUNDS;
use hickory_resolver_config::ResolverOpts;

/// What the options say to a transaction.
#[derive(Clone, Copy, Debug, PartialEq, Eq)]
pub struct Settings {
    /// After how many milliseconds nothing is waited for.
    pub timeout: u64,
    /// How many rounds there are at the most.
    pub rounds: usize,
    /// How many tries wait at once at the most.
    pub concurrent: usize,
    /// Whether a server that did not answer by UDP in time is asked by TCP.
    pub tcp_on_error: bool,
    /// Whether letters are varied, by UDP.
    pub varies_letters: bool,
}

impl Settings {
    /// Those of the options of a resolver: its timeout in seconds, one round more than its attempts and at most
    /// three, at least one try at once.
    pub fn new(options: &ResolverOpts) -> Settings
        ensures { result ≡ settings_of options.now }
    {
        Settings {
            timeout: options.timeout.saturating_mul(1000),
            rounds: options.attempts.saturating_add(1).min(MOST_ROUNDS),
            concurrent: options.num_concurrent_reqs.max(1),
            tcp_on_error: options.try_tcp_on_error,
            varies_letters: options.case_randomization,
        }
    }
}

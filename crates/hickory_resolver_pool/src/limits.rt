//! How much there may be. The numbers are choices, each with its reason.
ghost use Rattle.std.specs.Prelude.{◌≡◌};
ghost use Rattle.hickory_resolver_pool.specs.Pool.{limits_of, rules_of};

use hickory_resolver_askers::AskerLimits;
use hickory_resolver_channels::ChannelLimits;
use hickory_resolver_config::ResolverOpts;
use hickory_resolver_traffic::{Rules, TrafficLimits};

/// How many transactions are in flight at the most: so many a machine of one address asks in a second where it is busy.
pub const MOST_IN_FLIGHT: usize = 4_096;

/// How many wait for a place at the most: as many again, each for one timeout.
pub const MOST_WAITING: usize = 4_096;

/// How many channels are open at the most: a program has 1,024 descriptors where nobody gave it more, and needs some
/// for itself.
pub const MOST_CHANNELS: usize = 900;

/// How much there may be of what grows.
#[derive(Clone, Copy, Debug, PartialEq, Eq)]
pub struct PoolLimits {
    /// How many transactions are in flight at the most.
    pub transactions: usize,
    /// How many wait for a place at the most.
    pub waiting: usize,
    /// How many channels are open at the most.
    pub channels: usize,
}

impl Default for PoolLimits {
    ghost use Rattle.std.specs.Prelude.{◌≡◌};
    ghost use Rattle.hickory_resolver_pool.specs.Pool.{default_limits};

    ghost is_default = { λ l. l ≡ default_limits };

    fn default() -> PoolLimits {
        PoolLimits {
            transactions: MOST_IN_FLIGHT,
            waiting: MOST_WAITING,
            channels: MOST_CHANNELS,
        }
    }
}

// With the tries that may be on a stream.
pub(crate) fn limits_of(limits: &PoolLimits, options: &ResolverOpts) -> TrafficLimits
    ensures { result ≡ limits_of limits.now options.now }
{
    TrafficLimits {
        channels: ChannelLimits {
            channels: limits.channels,
            tries_on_stream: options.max_active_requests,
        },
        askers: AskerLimits {
            transactions: limits.transactions,
            waiting: limits.waiting,
        },
    }
}

pub(crate) fn rules_of(options: &ResolverOpts) -> Rules
    ensures { result ≡ rules_of options.now }
{
    Rules {
        timeout: options.timeout.saturating_mul(1000),
        strategy: options.server_ordering_strategy,
    }
}

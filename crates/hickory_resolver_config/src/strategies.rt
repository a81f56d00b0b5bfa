//! Choices among addresses, servers and tables of hosts.

/// Which addresses of a host are looked up.
#[derive(Clone, Copy, Debug, PartialEq, Eq)]
pub enum LookupIpStrategy {
    /// The A records alone.
    Ipv4Only,
    /// The AAAA records alone.
    Ipv6Only,
    /// Both, the A records first.
    Ipv4AndIpv6,
    /// Both, the AAAA records first.
    Ipv6AndIpv4,
    /// The AAAA records, and the A records where there are none.
    Ipv6thenIpv4,
    /// The A records, and the AAAA records where there are none.
    Ipv4thenIpv6,
}

/// In which order servers are asked. It has no effect here.
#[derive(Clone, Copy, Debug, PartialEq, Eq)]
pub enum ServerOrderingStrategy {
    /// By how servers have answered so far.
    QueryStatistics,
    /// In the order in which they are given.
    UserProvidedOrder,
    /// In turn.
    RoundRobin,
}

/// Whether the system's table of hosts is asked. It has no effect here: a table is handed in.
#[derive(Clone, Copy, Debug, PartialEq, Eq)]
pub enum ResolveHosts {
    /// It is asked first.
    Always,
    /// It is not asked.
    Never,
    /// It is asked first, unless the resolver forwards for others.
    Auto,
}

impl Default for LookupIpStrategy {
    ghost use Rattle.std.specs.Prelude.{◌≡◌};
    ghost use Rattle.hickory_resolver_config.specs.declared.strategies.LookupIpStrategy.TheVariants.{Ipv6AndIpv4};

    ghost is_default = { λ s. s ≡ Ipv6AndIpv4 };

    fn default() -> LookupIpStrategy {
        LookupIpStrategy::Ipv6AndIpv4
    }
}

impl Default for ServerOrderingStrategy {
    ghost use Rattle.std.specs.Prelude.{◌≡◌};
    ghost use Rattle.hickory_resolver_config.specs.declared.strategies.ServerOrderingStrategy.TheVariants.{QueryStatistics};

    ghost is_default = { λ s. s ≡ QueryStatistics };

    fn default() -> ServerOrderingStrategy {
        ServerOrderingStrategy::QueryStatistics
    }
}

impl Default for ResolveHosts {
    ghost use Rattle.std.specs.Prelude.{◌≡◌};
    ghost use Rattle.hickory_resolver_config.specs.declared.strategies.ResolveHosts.TheVariants.{Auto};

    ghost is_default = { λ r. r ≡ Auto };

    fn default() -> ResolveHosts {
        ResolveHosts::Auto
    }
}

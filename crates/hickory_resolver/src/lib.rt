//! A stub resolver's core: names and types are turned into records, by way of an upstream that is handed in.
#![tactic(auto)]

mod attempting;
mod calling;
mod driving;
pub mod explaining;
mod keeping;
pub mod listener;
mod literals;
pub mod lookup_future;
pub mod lookup_ip_future;
pub mod resolver;
pub mod resolver_builder;
pub mod runs;
mod serve;
mod serves;
pub mod transcript;
pub mod waiting_call;

/// The cache, and the bounds that it keeps to.
pub mod cache {
    pub use hickory_resolver_cache::ResponseCache;
    pub use hickory_resolver_lookup::{MAX_TTL, TtlBounds, TtlConfig};
}

/// The client: a cache over an upstream, the part of it that does no I/O, and the names that it does not ask for.
pub mod caching_client {
    pub use hickory_resolver_client::{
        CachingClient, ClientState, Progress, Waiting, is_special_use,
    };
}

/// What a resolver is configured with.
pub mod config {
    pub use hickory_resolver_config::{
        ConnectionConfig, LookupIpStrategy, NameServerConfig, OpportunisticEncryption,
        OpportunisticEncryptionConfig, ProtocolConfig, ResolveHosts, ResolverConfig, ResolverOpts,
        ServerGroup, ServerGroupIter, ServerOrderingStrategy, cloudflare, google, quad9,
    };
}

/// The table of hosts, and readers and writers under watch.
pub mod hosts {
    pub use hickory_resolver_hosts::{Hosts, HostsError, Watched};
}

/// What a look-up gives.
pub mod lookup {
    pub use hickory_resolver_lookup::Lookup;
}

/// What a look-up of addresses gives.
pub mod lookup_ip {
    pub use hickory_resolver_lookup::{LookupIp, LookupIpIntoIter, LookupIpIter};
}

/// Requests of a run.
pub mod request {
    pub use hickory_resolver_lookup::Request;
}

/// The names that are attempted for a name.
pub mod search {
    pub use hickory_resolver_attempts::attempts;
}

pub use cache::{MAX_TTL, ResponseCache, TtlBounds, TtlConfig};
pub use caching_client::{CachingClient, ClientState, Progress, Waiting, is_special_use};
pub use config::{
    ConnectionConfig, LookupIpStrategy, NameServerConfig, OpportunisticEncryption,
    OpportunisticEncryptionConfig, ProtocolConfig, ResolveHosts, ResolverConfig, ResolverOpts,
    ServerGroup, ServerGroupIter, ServerOrderingStrategy, cloudflare, google, quad9,
};
pub use explaining::{Answerer, Attempted};
pub use hosts::{Hosts, HostsError, Watched};
pub use listener::{Heard, Listener};
pub use lookup::Lookup;
pub use lookup_future::LookupFuture;
pub use lookup_ip::{LookupIp, LookupIpIntoIter, LookupIpIter};
pub use lookup_ip_future::LookupIpFuture;
pub use request::Request;
pub use resolver::Resolver;
pub use resolver_builder::ResolverBuilder;
pub use runs::{run, run_told, run_with_hasher};
pub use search::attempts;
pub use transcript::{Reply, Step, Transcript};
pub use waiting_call::{CallProgress, WaitingCall};

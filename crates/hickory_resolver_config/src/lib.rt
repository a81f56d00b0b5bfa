//! The configuration of a resolver: plain values, their defaults, equalities and copies. Each type says which
//! of its fields have an effect here, where an upstream is handed in and there are no transports.
#![tactic(auto)]

pub mod connection_config;
pub mod name_server_config;
pub mod opportunistic_encryption;
pub mod protocol_config;
pub mod resolver_config;
pub mod resolver_opts;
pub mod server_group;
pub mod server_group_iter;
pub mod strategies;

pub use connection_config::ConnectionConfig;
pub use name_server_config::NameServerConfig;
pub use opportunistic_encryption::{OpportunisticEncryption, OpportunisticEncryptionConfig};
pub use protocol_config::ProtocolConfig;
pub use resolver_config::ResolverConfig;
pub use resolver_opts::ResolverOpts;
pub use server_group::{ServerGroup, cloudflare, google, quad9};
pub use server_group_iter::ServerGroupIter;
pub use strategies::{LookupIpStrategy, ResolveHosts, ServerOrderingStrategy};

//! Bounds on times to live, what a look-up gives, also read as addresses, and the requests of a run.
#![tactic(auto)]

pub mod lookup;
pub mod lookup_ip;
pub mod request;
pub mod ttl_bounds;
pub mod ttl_config;

pub use lookup::Lookup;
pub use lookup_ip::{LookupIp, LookupIpIntoIter, LookupIpIter};
pub use request::Request;
pub use ttl_bounds::{MAX_TTL, TtlBounds};
pub use ttl_config::TtlConfig;

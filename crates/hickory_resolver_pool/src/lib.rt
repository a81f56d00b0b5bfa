//! A pool of name servers without a socket: events in, actions out. Who is asked, which reply is believed, when it is
//! asked again and what a question comes to is decided here; a program around it opens sockets, moves octets and tells
//! the time.
#![tactic(auto)]

pub mod laws;
pub mod limits;
pub mod over;
pub mod pool;
pub mod servers;

pub use hickory_resolver_askers::{Asker, Forgotten};
pub use hickory_resolver_channels::ChannelKind;
pub use hickory_resolver_traffic::{Failure, Opening, Sent};
pub use hickory_resolver_tries::{DnssecOptions, PoolQuestion};
pub use limits::PoolLimits;
pub use over::{Over, PoolOutcome};
pub use pool::{Action, Asked, NameServerPool};
pub use servers::{PoolServer, ServersError};

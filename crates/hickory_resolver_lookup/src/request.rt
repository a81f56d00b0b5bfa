//! Requests of a run.
ghost use Rattle.std.specs.Prelude.{◌≡◌};
ghost use Rattle.hickory_resolver_model.specs.Run.{moment_of};
ghost use Rattle.hickory_resolver_lookup.specs.Requests.{request_of};

use hickory_proto_core::RecordType;

/// A request of a run. Names and hosts are kept as they are written: whether they are any is found out when
/// the request is served.
#[derive(Debug, Drop)]
pub enum Request {
    /// A look-up of records of a type.
    Lookup {
        name: String,
        record_type: RecordType,
        /// The moment at which it is made, in seconds.
        now: u64,
    },
    /// A look-up of the addresses of a host.
    LookupIp {
        host: String,
        /// The moment at which it is made, in seconds.
        now: u64,
    },
    /// What the cache has for the attempts at a name, of a type, is dropped.
    ClearLookup {
        name: String,
        record_type: RecordType,
        /// The moment at which it is made, in seconds.
        now: u64,
    },
    /// The cache is emptied.
    Clear {
        /// The moment at which it is made, in seconds.
        now: u64,
    },
}

impl Request {
    /// The moment at which it is made, in seconds.
    pub fn moment(&self) -> u64
        ensures { result ≡ moment_of (request_of self.now) }
    {
        match self {
            Request::Lookup {
                name: _,
                record_type: _,
                now,
            } => *now,
            Request::LookupIp { host: _, now } => *now,
            Request::ClearLookup {
                name: _,
                record_type: _,
                now,
            } => *now,
            Request::Clear { now } => *now,
        }
    }
}

//! The options of a resolver.
ghost use Rattle.std.specs.Prelude.{◌≡◌, IfOk, IsOkUnless};
ghost use Rattle.hickory_resolver_config.specs.ResolverConfig.{OptionsValue, default_options};

use crate::strategies::{LookupIpStrategy, ResolveHosts, ServerOrderingStrategy};
use hickory_proto_core::{IpNet, NetError};
use std::alloc::{AllocError, Global};
use std::collections::BTreeSet;
use std::marker::Model;

/// The options of a resolver. Those that say how name servers are asked are read by a pool of name servers alone:
/// a resolver over an upstream that is handed in does not read them, for that upstream decides how it asks.
#[derive(Debug, Drop)]
pub struct ResolverOpts {
    /// A relative name of more labels than this is looked up as it is before the domain and the search list
    /// are tried, and else after them. `lookup_ip` looks the text of an IPv4 address up as a name only where
    /// this is 5 or more.
    pub ndots: usize,
    /// For how many seconds a pool waits for the reply to one try.
    pub timeout: u64,
    /// How often a pool asks again, at most twice: each time is a round over the servers of a group. A resolver sends
    /// each question once.
    pub attempts: usize,
    /// Whether requests have an EDNS record (RFC 6891): it is handed to the upstream with each question.
    pub edns0: bool,
    /// Which addresses of a host are looked up.
    pub ip_strategy: LookupIpStrategy,
    /// How many results the cache has room for.
    pub cache_size: u64,
    /// How many octets the cache may take for what it keeps; as many as its results take where it is left out.
    pub cache_octets: Option<u64>,
    /// Whether the system's table of hosts is asked. No effect: a table is handed in.
    pub use_hosts_file: ResolveHosts,
    /// For how many seconds a positive answer is kept at the least, and the least TTL of its records, kept or not;
    /// 0 where it is left out.
    pub positive_min_ttl: Option<u64>,
    /// For how many seconds a negative answer is kept at the least; 0 where it is left out.
    pub negative_min_ttl: Option<u64>,
    /// For how many seconds a positive answer is kept at the greatest, and the greatest TTL of its records, kept or
    /// not; a day where it is left out.
    pub positive_max_ttl: Option<u64>,
    /// For how many seconds a negative answer is kept at the greatest; a day where it is left out.
    pub negative_max_ttl: Option<u64>,
    /// How many servers a pool asks at a time, at least one.
    pub num_concurrent_reqs: usize,
    /// How many messages of a pool wait on one stream at a time, at least one.
    pub max_active_requests: usize,
    /// Whether a result keeps the CNAME records on the way to it.
    pub preserve_intermediates: bool,
    /// Whether a pool asks over TCP where a question failed over UDP.
    pub try_tcp_on_error: bool,
    /// In which order a pool asks servers.
    pub server_ordering_strategy: ServerOrderingStrategy,
    /// Whether the upstream is asked to recurse: it is handed to the upstream with each question.
    pub recursion_desired: bool,
    /// Local UDP ports that are not used: for the program that opens the sockets.
    pub avoid_local_udp_ports: BTreeSet<u16>,
    /// Whether the system chooses local UDP ports: for the program that opens the sockets.
    pub os_port_selection: bool,
    /// Whether the case of names is varied: it is handed to the upstream with each question.
    pub case_randomization: bool,
    /// Networks whose addresses are kept in answers in spite of `deny_answers`, where a program filters answers.
    pub allow_answers: Vec<IpNet>,
    /// Networks whose addresses are taken out of answers, where a program filters answers.
    pub deny_answers: Vec<IpNet>,
    /// The largest payload that is announced by EDNS, in bytes: it is handed to the upstream with each
    /// question.
    pub edns_payload_len: u16,
}

impl Model for ResolverOpts {
    ghost use Rattle.hickory_resolver_config.specs.ResolverConfig.{OptionsValue};

    ghost Value = { OptionsValue };

    ghost view = { λ o. record {
      ndots = o.ndots;
      timeout = o.timeout;
      attempts = o.attempts;
      edns0 = o.edns0;
      ip_strategy = o.ip_strategy;
      cache_size = o.cache_size;
      cache_octets = o.cache_octets;
      use_hosts_file = o.use_hosts_file;
      positive_min_ttl = o.positive_min_ttl;
      negative_min_ttl = o.negative_min_ttl;
      positive_max_ttl = o.positive_max_ttl;
      negative_max_ttl = o.negative_max_ttl;
      num_concurrent_reqs = o.num_concurrent_reqs;
      max_active_requests = o.max_active_requests;
      preserve_intermediates = o.preserve_intermediates;
      try_tcp_on_error = o.try_tcp_on_error;
      server_ordering_strategy = o.server_ordering_strategy;
      recursion_desired = o.recursion_desired;
      avoid_local_udp_ports = o.avoid_local_udp_ports.keys;
      os_port_selection = o.os_port_selection;
      case_randomization = o.case_randomization;
      allow_answers = o.allow_answers.items;
      deny_answers = o.deny_answers.items;
      edns_payload_len = o.edns_payload_len;
    } };
}

impl ResolverOpts {
    /// The default options. Takes no memory.
    pub fn default(alloc: Global) -> ResolverOpts
        ensures { result ≡ default_options }
    {
        ResolverOpts {
            ndots: 1,
            timeout: 5,
            attempts: 2,
            edns0: true,
            ip_strategy: LookupIpStrategy::default(),
            cache_size: 8192,
            cache_octets: None,
            use_hosts_file: ResolveHosts::default(),
            positive_min_ttl: None,
            negative_min_ttl: None,
            positive_max_ttl: None,
            negative_max_ttl: None,
            num_concurrent_reqs: 2,
            max_active_requests: 32,
            preserve_intermediates: true,
            try_tcp_on_error: false,
            server_ordering_strategy: ServerOrderingStrategy::default(),
            recursion_desired: true,
            avoid_local_udp_ports: BTreeSet::new(alloc),
            os_port_selection: false,
            case_randomization: false,
            allow_answers: Vec::new(alloc),
            deny_answers: Vec::new(alloc),
            edns_payload_len: 1232,
        }
    }

    /// A copy of every field.
    pub fn clone(&self) -> Result<ResolverOpts, NetError>
        ensures ok { IfOk result (λ o. o ≡ self.now) }
        ensures err { IsOkUnless result NetError.OutOfMemory }
    {
        Ok(Clone::clone(self)?)
    }
}

/// A copy equals its source.
impl Clone for ResolverOpts {
    ghost use Rattle.std.specs.Prelude.{◌≡◌};

    ghost is_clone = { λ source copy. copy ≡ source };

    fn clone(&self) -> Result<ResolverOpts, AllocError> {
        Ok(ResolverOpts {
            ndots: self.ndots,
            timeout: self.timeout,
            attempts: self.attempts,
            edns0: self.edns0,
            ip_strategy: self.ip_strategy,
            cache_size: self.cache_size,
            cache_octets: self.cache_octets,
            use_hosts_file: self.use_hosts_file,
            positive_min_ttl: self.positive_min_ttl,
            negative_min_ttl: self.negative_min_ttl,
            positive_max_ttl: self.positive_max_ttl,
            negative_max_ttl: self.negative_max_ttl,
            num_concurrent_reqs: self.num_concurrent_reqs,
            max_active_requests: self.max_active_requests,
            preserve_intermediates: self.preserve_intermediates,
            try_tcp_on_error: self.try_tcp_on_error,
            server_ordering_strategy: self.server_ordering_strategy,
            recursion_desired: self.recursion_desired,
            avoid_local_udp_ports: self.avoid_local_udp_ports.clone()?,
            os_port_selection: self.os_port_selection,
            case_randomization: self.case_randomization,
            allow_answers: self.allow_answers.clone()?,
            deny_answers: self.deny_answers.clone()?,
            edns_payload_len: self.edns_payload_len,
        })
    }
}

//! Look-ups of several names, one after another.
ghost use Rattle.std.specs.Prelude.{[], false, true, reverse};
ghost use Rattle.hickory_resolver_model.specs.Resolver.{LooksUp};
ghost use Rattle.hickory_resolver_model.specs.Run.{name_plan};

use crate::driving::look_up_names;
use hickory_proto_core::{DnsHandle, DnsRequestOptions, Name, NetError, RecordType};
use hickory_resolver_attempts::Sought;
use hickory_resolver_client::CachingClient;
use hickory_resolver_hosts::Hosts;
use hickory_resolver_lookup::Lookup;
use std::hash::BuildHasher;

/// Look-ups of several names, one after another.
pub struct LookupFuture;

impl LookupFuture {
    /// Looks up records of a type for names, by a client at a moment (seconds). The names are attempted from
    /// the last of the list to the first; the first result that has answers is the reply, and no other name
    /// is attempted after it. Where none has answers, the reply is the result of the last attempt, and for
    /// no names a message error. Out of memory ends the look-up.
    pub fn lookup<H: DnsHandle, S: BuildHasher>(
        names: Vec<Name>,
        record_type: RecordType,
        options: DnsRequestOptions,
        client: &mut CachingClient<H, S>,
        now: u64,
    ) -> Result<Lookup, NetError>
        ensures { LooksUp H.step options [] now (name_plan record_type) false (reverse names.items) client.old
            result client.new }
    {
        let hosts: Hosts = Hosts::default(*names.allocator());
        let sought = Sought::Records(record_type);
        look_up_names(names, sought, None, false, options, client, &hosts, now)
    }

    /// As `lookup`; for the first name that is attempted, the table of hosts is asked before the client.
    pub fn lookup_with_hosts<H: DnsHandle, S: BuildHasher, T: BuildHasher>(
        names: Vec<Name>,
        record_type: RecordType,
        options: DnsRequestOptions,
        client: &mut CachingClient<H, S>,
        hosts: &Hosts<T>,
        now: u64,
    ) -> Result<Lookup, NetError>
        ensures { LooksUp H.step options hosts.now now (name_plan record_type) true (reverse names.items)
            client.old result client.new }
    {
        let sought = Sought::Records(record_type);
        look_up_names(names, sought, None, true, options, client, hosts, now)
    }
}

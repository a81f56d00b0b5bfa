//! Look-ups of addresses.
ghost use Rattle.std.specs.Prelude.{true, reverse};
ghost use Rattle.std.specs.Option.{option_map};
ghost use Rattle.hickory_proto_core.specs.Records.{data_of};
ghost use Rattle.hickory_resolver_model.specs.Calls.{last_resort};
ghost use Rattle.hickory_resolver_model.specs.Resolver.{LooksUp};
ghost use Rattle.hickory_resolver_model.specs.Run.{address_plan};

use crate::driving::look_up_names;
use crate::literals::as_addresses;
use hickory_proto_core::{DnsHandle, DnsRequestOptions, Name, NetError, RData};
use hickory_resolver_attempts::Sought;
use hickory_resolver_client::CachingClient;
use hickory_resolver_config::LookupIpStrategy;
use hickory_resolver_hosts::Hosts;
use hickory_resolver_lookup::LookupIp;
use std::hash::BuildHasher;

/// Look-ups of addresses.
pub struct LookupIpFuture;

impl LookupIpFuture {
    /// Looks up addresses for names, by a client at a moment (seconds). The names are attempted from the last
    /// of the list to the first; the first result that has answers is the reply, and no other name is attempted
    /// after it. The strategy says which families are asked for at each name. Before the client, the table of
    /// hosts is asked, for every name and family. Where no result has answers, the data of `finally_ip_addr`
    /// are the reply, if given: owned by the name without labels, under the question for the root, for a day.
    /// Else the reply is the result of the last attempt, and for no names a message error. Out of memory ends
    /// the look-up.
    pub fn lookup<H: DnsHandle, S: BuildHasher, T: BuildHasher>(
        names: Vec<Name>,
        strategy: LookupIpStrategy,
        client: &mut CachingClient<H, S>,
        options: DnsRequestOptions,
        hosts: &Hosts<T>,
        finally_ip_addr: Option<RData>,
        now: u64,
    ) -> Result<LookupIp, NetError>
        ensures { LooksUp H.step options hosts.now now
            (address_plan strategy (option_map (λ rdata. last_resort (data_of rdata) now) finally_ip_addr))
            true (reverse names.items) client.old result client.new }
    {
        let sought = Sought::Addresses(strategy);
        as_addresses(look_up_names(
            names,
            sought,
            finally_ip_addr,
            true,
            options,
            client,
            hosts,
            now,
        ))
    }
}

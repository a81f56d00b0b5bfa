//! What a forwarder is told to do.
ghost use Rattle.std.specs.Prelude.{◌≡◌};
ghost use Rattle.std.specs.List.{list_any};
ghost use Rattle.hickory_proto_names.specs.Name.{is_zone_of};
ghost use Rattle.hickory_proto_core.specs.Records.{data_of};
ghost use Rattle.hickory_resolver_filters.specs.Networks.{is_in_some};
ghost use Rattle.yimarotu_forwarder.specs.Options.{denied_for, is_exempt, may_ask, stale_seconds};

use crate::choices::LONGEST_STALE;
use client_limits::ClientLimits;
use hickory_proto_core::{IpNet, Name, RData};
use hickory_resolver_filters::is_in;
use std::marker::Model;
use std::net::IpAddr;

/// What a forwarder is told to do.
#[derive(Debug, Drop)]
pub struct ForwarderOptions {
    /// Whether AD is passed on as the servers say it (RFC 6840, section 5.8).
    pub trusts_authentic_data: bool,
    /// The networks whose clients may ask.
    pub may_ask: Vec<IpNet>,
    /// Whether other clients are dropped, and not refused.
    pub drops_strangers: bool,
    /// How many clients may wait.
    pub limits: ClientLimits,
    /// For how many seconds a reply is kept at the most, and the greatest TTL that is told of it.
    pub greatest_ttl: u64,
    /// Whether what is asked for again shortly before it is let go is looked up anew, while nobody waits for it.
    pub prefetches: bool,
    /// For how many seconds past its end a reply is told where servers fail (RFC 8767): for none where it is 0, and for
    /// a day at the most.
    pub serves_stale: u64,
    /// The networks whose addresses are taken out of replies, so that no name elsewhere leads to addresses within.
    pub denied: Vec<IpNet>,
    /// The networks whose addresses stay all the same.
    pub allowed: Vec<IpNet>,
    /// The domains for whose names, and for those below them, all addresses stay.
    pub exempt: Vec<Name>,
}

impl Model for ForwarderOptions {
    ghost use Rattle.yimarotu_forwarder.specs.Options.{OptionsValue};

    ghost Value = { OptionsValue };

    ghost view = { λ o. record {
      trusts_authentic_data = o.trusts_authentic_data;
      may_ask = o.may_ask.items;
      drops_strangers = o.drops_strangers;
      limits = o.limits;
      greatest_ttl = o.greatest_ttl;
      prefetches = o.prefetches;
      serves_stale = o.serves_stale;
      denied = o.denied.items;
      allowed = o.allowed.items;
      exempt = o.exempt.items;
    } };
}

impl ForwarderOptions {
    /// Whether a client of this address may ask.
    pub fn may_ask(&self, address: IpAddr) -> bool
        ensures { result ≡ may_ask address self.now }
    {
        is_in_some(&self.may_ask, &RData::from(address))
    }

    // Whether a reply to a question for this name may have any address.
    pub(crate) fn is_exempt(&self, name: &Name) -> bool
        ensures { result ≡ is_exempt name.now self.now }
    {
        is_below_some(&self.exempt, name)
    }

    // The networks whose addresses are taken out of a reply to a question for this name.
    pub(crate) fn denied_for(&self, name: &Name) -> &[IpNet]
        ensures { result.now ≡ denied_for name.now self.now }
    {
        if self.is_exempt(name) {
            &[]
        } else {
            &self.denied
        }
    }

    // For how many seconds past its end a reply is told.
    pub(crate) fn stale_seconds(&self) -> u64
        ensures { result ≡ stale_seconds self.now }
    {
        self.serves_stale.min(LONGEST_STALE)
    }
}

// Whether a name is one of these domains, or below one.
fn is_below_some(domains: &[Name], name: &Name) -> bool
    ensures { result ≡ list_any (λ domain. is_zone_of domain name.now) domains.now }
{
    domains.iter().any(|domain| domain.zone_of(name))
}

// Whether an address is in one of these networks.
pub(crate) fn is_in_some(nets: &[IpNet], rdata: &RData) -> bool
    ensures { result ≡ is_in_some nets.now (data_of rdata.now) }
{
    nets.iter().any(|net| is_in(net, rdata))
}

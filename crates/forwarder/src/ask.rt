//! A look-up over the zone, with a contract of its own.
ghost use Rattle.std.specs.Prelude.{◌≡◌, Some};
ghost use Rattle.hickory_resolver.specs.Cache.{Entry, current};
ghost use Rattle.forwarder.specs.Zone.{IsSameZone};

use crate::zone::Zone;
use hickory_proto_core::{DnsRequestOptions, NetError, Query};
use hickory_resolver::{CachingClient, Lookup};

/// Looks a question up at a moment (seconds). The zone stays as it was; and while the cache has a current entry for
/// the question, which is up to the deadline of the entry, the zone is not asked.
pub fn ask(client: &mut CachingClient<Zone>, query: Query, now: u64) -> Result<Lookup, NetError>
    ensures zone_stays { IsSameZone client.old.handle client.new.handle }
    ensures within_ttl { (entry : Entry) → current query now client.old.cache.entries ≡ Some entry
        → client.new.handle ≡ client.old.handle }
{
    client.lookup(query, DnsRequestOptions::default(), now)
}

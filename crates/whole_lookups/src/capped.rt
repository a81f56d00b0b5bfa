//! Whole replies that are told for no longer than so many seconds.
ghost use Rattle.std.specs.Prelude.{◌≡◌, map, min};
ghost use Rattle.hickory_resolver_model.specs.Verdict.{with_ttl_at_most};
ghost use Rattle.whole_lookups.specs.Capped.{capped};

use hickory_proto_core::Record;
use whole_replies::KeptReply;

fn at_most(greatest: u64, seconds: u32) -> u32
    ensures { result ≡ min seconds greatest }
{
    u64::from(seconds).min(greatest) as u32
}

fn cap_ttl(greatest: u64, found: &mut Record)
    ensures { found.new ≡ with_ttl_at_most greatest found.old }
{
    found.ttl = at_most(greatest, found.ttl);
}

fn cap_ttls(greatest: u64, records: &mut Vec<Record>)
    ensures { records.new.items ≡ map (with_ttl_at_most greatest) records.old.items }
{
    for found in records.iter_mut() {
        cap_ttl(greatest, found);
    }
}

/// Bounds each TTL of a reply, and for how long it may be told, by so many seconds (RFC 2181, section 8). All else
/// stays. Takes no memory.
pub fn cap(greatest: u64, kept: &mut KeptReply)
    ensures { kept.new ≡ capped greatest kept.old }
{
    cap_ttls(greatest, &mut kept.answers);
    cap_ttls(greatest, &mut kept.authorities);
    kept.seconds = at_most(greatest, kept.seconds);
}

//! What counts of a reply.
ghost use Rattle.std.specs.Prelude.{◌≡◌, filter, map};
ghost use Rattle.hickory_resolver_model.specs.Verdict.{has_class};
ghost use Rattle.whole_replies.specs.Received.{received, received_records, received_ttl, with_received_ttl};

use hickory_proto_core::{Message, Query, Record};

// A TTL as it counts, in seconds.
pub(crate) fn received_ttl(seconds: u32) -> u32
    ensures { result ≡ received_ttl seconds }
{
    if seconds < 2_147_483_648 { seconds } else { 0 }
}

fn receive_ttl(found: &mut Record)
    ensures { found.new ≡ with_received_ttl found.old }
{
    found.ttl = received_ttl(found.ttl);
}

fn receive_ttls(records: &mut Vec<Record>)
    ensures { records.new.items ≡ map with_received_ttl records.old.items }
{
    for found in records.iter_mut() {
        receive_ttl(found);
    }
}

fn has_class(query: &Query, found: &Record) -> bool
    ensures { result ≡ has_class query.now found.now }
{
    query.query_class == found.dns_class
}

fn keep_class(query: &Query, records: &mut Vec<Record>)
    ensures { records.new.items ≡ filter (has_class query.now) records.old.items }
{
    records.retain(|found| has_class(query, found));
}

fn receive_records(query: &Query, records: &mut Vec<Record>)
    ensures { records.new.items ≡ received_records query.now records.old.items }
{
    keep_class(query, records);
    receive_ttls(records);
}

// Leaves of a reply to a question what counts.
pub(crate) fn receive(query: &Query, message: &mut Message)
    ensures { message.new ≡ received query.now message.old }
{
    receive_records(query, &mut message.answers);
    receive_records(query, &mut message.authorities);
}

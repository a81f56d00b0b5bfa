//! What is kept of a reply, as it ages.
ghost use Rattle.std.specs.Prelude.{◌≡◌, map};
ghost use Rattle.hickory_proto_core.specs.Records.{lower_ttl};
ghost use Rattle.whole_replies.specs.Kept.{aged};

use hickory_proto_core::Record;
use whole_replies::KeptReply;

fn age_record(older: &mut Record, seconds: u64)
    ensures { older.new ≡ lower_ttl seconds older.old }
{
    older.ttl = u64::from(older.ttl).saturating_sub(seconds) as u32;
}

fn age_records(records: &mut Vec<Record>, seconds: u64)
    ensures { records.new.items ≡ map (lower_ttl seconds) records.old.items }
{
    for older in records.iter_mut() {
        age_record(older, seconds);
    }
}

// So many seconds later, of which there may be more than a TTL has: each TTL is so much lower, and 0 at the least.
pub(crate) fn age(kept: &mut KeptReply, seconds: u64)
    ensures { kept.new ≡ aged seconds kept.old }
{
    age_records(&mut kept.answers, seconds);
    age_records(&mut kept.authorities, seconds);
    kept.seconds = u64::from(kept.seconds).saturating_sub(seconds) as u32;
}

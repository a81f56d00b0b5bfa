//! Responses without the addresses that are denied.
ghost use Rattle.std.specs.Prelude.{◌≡◌, filter};
ghost use Rattle.hickory_resolver_filters.specs.Filters.{is_kept, filtered};

use crate::networks::is_in_some;
use hickory_proto_core::{IpNet, Message, Record};

/// Networks whose addresses are taken out of responses, and networks whose addresses are kept in spite of it.
#[derive(Clone, Copy, Debug)]
pub struct AnswerFilter<'a> {
    /// Kept, whatever is denied.
    pub allow: &'a [IpNet],
    /// Taken out.
    pub deny: &'a [IpNet],
}

// Whether a record stays.
fn is_kept(allow: &[IpNet], deny: &[IpNet], found: &Record) -> bool
    ensures { result ≡ is_kept allow.now deny.now found.now }
{
    is_in_some(allow, &found.rdata) || !is_in_some(deny, &found.rdata)
}

fn filter_records(allow: &[IpNet], deny: &[IpNet], records: &mut Vec<Record>)
    ensures { records.new.items ≡ filter (is_kept allow.now deny.now) records.old.items }
{
    records.retain(|found| is_kept(allow, deny, found));
}

/// Takes each record out that is an address which is denied and not allowed, of all three sections. The header and the
/// question stay, so that a response whose answers are all taken out is one without records.
pub fn filter_message(by: &AnswerFilter<'_>, message: &mut Message)
    ensures { message.new ≡ filtered by.now.allow.now by.now.deny.now message.old }
{
    filter_records(by.allow, by.deny, &mut message.answers);
    filter_records(by.allow, by.deny, &mut message.authorities);
    filter_records(by.allow, by.deny, &mut message.additionals);
}

//! Whole replies without the addresses that are denied.
ghost use Rattle.std.specs.Prelude.{◌≡◌, filter};
ghost use Rattle.std.specs.List.{list_all};
ghost use Rattle.hickory_proto_core.specs.Records.{data_of};
ghost use Rattle.whole_lookups.specs.Denied.{are_kept_hints, is_kept, is_kept_data, without_denied};
ghost use Rattle.whole_lookups.specs.Hints.{has_hints, hints};

use crate::hints::{hints_stay, is_kept_address};
use hickory_proto_core::{IpNet, RData, Record};
use hickory_resolver_filters::AnswerFilter;
use whole_replies::KeptReply;

// SVCB and HTTPS.
fn has_hints(code: u16) -> bool
    ensures { result ≡ has_hints code }
{
    code == 64 || code == 65
}

fn are_kept_hints(allow: &[IpNet], deny: &[IpNet], octets: &[u8]) -> bool
    ensures { result ≡ are_kept_hints allow.now deny.now (hints octets.now) }
{
    hints_stay(allow, deny, octets).unwrap_or(deny.is_empty())
}

fn is_kept_data(allow: &[IpNet], deny: &[IpNet], rdata: &RData) -> bool
    ensures { result ≡ is_kept_data allow.now deny.now (data_of rdata.now) }
{
    match rdata {
        RData::Unknown { code, bytes } if has_hints(*code) => are_kept_hints(allow, deny, bytes),
        _ => is_kept_address(allow, deny, rdata),
    }
}

// Whether a record stays.
fn is_kept(allow: &[IpNet], deny: &[IpNet], found: &Record) -> bool
    ensures { result ≡ is_kept allow.now deny.now found.now }
{
    is_kept_data(allow, deny, &found.rdata)
}

fn keep_answers(allow: &[IpNet], deny: &[IpNet], answers: &mut Vec<Record>)
    ensures { answers.new.items ≡ filter (is_kept allow.now deny.now) answers.old.items }
{
    answers.retain(|found| is_kept(allow, deny, found));
}

fn all_stay(allow: &[IpNet], deny: &[IpNet], answers: &[Record]) -> bool
    ensures { result ≡ list_all (is_kept allow.now deny.now) answers.now }
{
    answers.iter().all(|found| is_kept(allow, deny, found))
}

/// Takes each address that is denied and not allowed out of the answers of a reply, so that no name elsewhere leads to
/// addresses within; and each HTTPS or SVCB record that hints at such an address, or whose hints cannot be read, where
/// something is denied (RFC 9460, section 7.3). Where a record is taken out, the reply is not held for authentic. Takes
/// no memory.
pub fn without_denied(by: &AnswerFilter<'_>, kept: &mut KeptReply)
    ensures { kept.new ≡ without_denied by.now.allow.now by.now.deny.now kept.old }
{
    kept.authentic_data = kept.authentic_data && all_stay(by.allow, by.deny, &kept.answers);
    keep_answers(by.allow, by.deny, &mut kept.answers);
}

//! Outcomes whose times to live have counted down, aged in place.
ghost use Rattle.std.specs.Prelude.{◌≡◌, ◌-◌, IfOk, map};
ghost use Rattle.std.specs.Option.{option_map};
ghost use Rattle.hickory_proto_core.specs.Errors.{items_or_none};
ghost use Rattle.hickory_resolver_model.specs.Cache.{age, aged_record, aged_records, aged_message, aged_forward, aged_negative, aged_error};

use hickory_proto_core::{DnsError, ForwardNSData, Message, NetError, NoRecords, Record};
use std::alloc::AllocError;

// The seconds since a moment, as far as a TTL can count; none where the moment has not come yet.
pub fn age(original_time: u64, now: u64) -> u32
    ensures { result ≡ age original_time now }
{
    now.saturating_sub(original_time).min(u32::MAX as u64) as u32
}

// A copy of the message, the TTL of each record lower by these seconds.
pub fn message_aged(message: &Message, seconds: u32) -> Result<Message, AllocError>
    ensures { IfOk result (λ copy. copy ≡ aged_message seconds message.now) }
{
    let mut copy = Clone::clone(message)?;
    age_message(&mut copy, seconds);
    Ok(copy)
}

// A copy of the error, the times to live that it holds lower by these seconds.
pub fn error_aged(error: &NetError, seconds: u32) -> Result<NetError, AllocError>
    ensures { IfOk result (λ copy. copy ≡ aged_error seconds error.now) }
{
    let mut copy = Clone::clone(error)?;
    age_error(&mut copy, seconds);
    Ok(copy)
}

// Lowers the TTL of each record of the message.
fn age_message(message: &mut Message, seconds: u32)
    ensures { message.new ≡ aged_message seconds message.old }
{
    age_records(&mut message.answers, seconds);
    age_records(&mut message.authorities, seconds);
    age_records(&mut message.additionals, seconds);
}

// Lowers the times to live that a negative answer holds; other errors hold none.
fn age_error(error: &mut NetError, seconds: u32)
    ensures { error.new ≡ aged_error seconds error.old }
{
    if let NetError::Dns(DnsError::NoRecordsFound(negative)) = error {
        age_negative(negative, seconds);
    }
}

fn age_negative(negative: &mut NoRecords, seconds: u32)
    ensures { negative.new ≡ aged_negative seconds negative.old }
{
    age_soa(&mut negative.soa, seconds);
    age_ns(&mut negative.ns, seconds);
    age_ttl(&mut negative.negative_ttl, seconds);
    age_section(&mut negative.authorities, seconds);
}

fn age_soa(soa: &mut Option<Record>, seconds: u32)
    ensures { soa.new ≡ option_map (aged_record seconds) soa.old }
{
    if let Some(soa) = soa {
        soa.decrement_ttl(seconds);
    }
}

fn age_ns(ns: &mut Option<Vec<ForwardNSData>>, seconds: u32)
    ensures { items_or_none ns.new ≡ option_map (map (aged_forward seconds)) (items_or_none ns.old) }
{
    if let Some(forwards) = ns {
        age_forwards(forwards, seconds);
    }
}

fn age_ttl(ttl: &mut Option<u32>, seconds: u32)
    ensures { ttl.new ≡ option_map (λ t. t - seconds) ttl.old }
{
    if let Some(ttl) = ttl {
        *ttl = ttl.saturating_sub(seconds);
    }
}

fn age_section(section: &mut Option<Vec<Record>>, seconds: u32)
    ensures { items_or_none section.new ≡ option_map (aged_records seconds) (items_or_none section.old) }
{
    if let Some(records) = section {
        age_records(records, seconds);
    }
}

fn age_forwards(forwards: &mut Vec<ForwardNSData>, seconds: u32)
    ensures { forwards.new.items ≡ map (aged_forward seconds) forwards.old.items }
{
    for older in forwards.iter_mut() {
        age_forward(older, seconds);
    }
}

fn age_forward(forward: &mut ForwardNSData, seconds: u32)
    ensures { forward.new ≡ aged_forward seconds forward.old }
{
    forward.ns.decrement_ttl(seconds);
    forward.glue.decrement_ttl(seconds);
}

fn age_records(records: &mut Vec<Record>, seconds: u32)
    ensures { records.new.items ≡ aged_records seconds records.old.items }
{
    for older in records.iter_mut() {
        older.decrement_ttl(seconds);
    }
}

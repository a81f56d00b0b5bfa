//! Look-ups of a session: they are started, fed by hand, and forgotten.
ghost use Rattle.std.specs.Prelude.{◌≡◌, None, Some};
ghost use Rattle.yimarotu_c.specs.Failures.{IsFailure};
ghost use Rattle.yimarotu_c.specs.LookingUp.{Cancelled, ClearedAll, ClearedName, Fails, Fed, OnOpen, Started, StartedHost, came_end, came_of, came_unread, cancel_status, clear_status, status_of};
ghost use Rattle.yimarotu_c.specs.Statuses.{number_of};
ghost use Rattle.yimarotu_c.specs.declared.status.Status.TheVariants as status;
ghost use Rattle.yimarotu_embedded.specs.Held.{OnFed};

use crate::faults::reading_number;
use crate::sessions::{YimarotuSession, put, take};
use crate::status::Status;
use hickory_proto_core::{DnsResponse, NetError, RecordType};
use hickory_proto_wire::{WireError, WireMessage};
use std::alloc::{AllocError, Global};
use std::str;
use yimarotu_embedded::Held;
use yimarotu_session::{Session, SessionError};

/// How far a look-up came.
#[repr(C)]
#[derive(Drop)]
pub struct YimarotuProgress {
    /// The number of a status.
    pub status: u8,
    /// The number of a fault; else 0.
    pub fault: u8,
    /// Whether it waits for what comes back to a question; else it is done.
    pub waits: bool,
}

/// Starts a look-up of records of a type for a name, at a moment (milliseconds), under a number.
#[unsafe(no_mangle)]
pub extern "C" fn yimarotu_start(
    alloc: Global,
    session: &mut YimarotuSession,
    number: u64,
    name: &[u8],
    record_type: u16,
    moment: u64,
) -> YimarotuProgress
    ensures { OnOpen (Started number name.now record_type moment) (came_end status.Closed) session.old.inside.value
        result session.new.inside.value }
{
    let Some(mut inside) = take(alloc, session) else {
        return ended(Status::Closed);
    };
    let came = start(&mut inside, number, name, record_type, moment);
    put(session, inside);
    came
}

fn start(
    held: &mut Held,
    number: u64,
    name: &[u8],
    record_type: u16,
    moment: u64,
) -> YimarotuProgress
    ensures { Started number name.now record_type moment held.old result held.new }
{
    match str::from_utf8(name) {
        Ok(name) => told(held.start(number, name, RecordType::from_code(record_type), moment)),
        Err(_) => ended(Status::Text),
    }
}

/// Starts a look-up of the addresses of a host, at a moment (milliseconds), under a number.
#[unsafe(no_mangle)]
pub extern "C" fn yimarotu_start_ip(
    alloc: Global,
    session: &mut YimarotuSession,
    number: u64,
    host: &[u8],
    moment: u64,
) -> YimarotuProgress
    ensures { OnOpen (StartedHost number host.now moment) (came_end status.Closed) session.old.inside.value result
        session.new.inside.value }
{
    let Some(mut inside) = take(alloc, session) else {
        return ended(Status::Closed);
    };
    let came = start_ip(&mut inside, number, host, moment);
    put(session, inside);
    came
}

fn start_ip(held: &mut Held, number: u64, host: &[u8], moment: u64) -> YimarotuProgress
    ensures { StartedHost number host.now moment held.old result held.new }
{
    match str::from_utf8(host) {
        Ok(host) => told(held.start_ip(number, host, moment)),
        Err(_) => ended(Status::Text),
    }
}

/// Goes on with the look-up of a number by a message that came back to its question.
#[unsafe(no_mangle)]
pub extern "C" fn yimarotu_feed(
    alloc: Global,
    session: &mut YimarotuSession,
    number: u64,
    message: &[u8],
) -> YimarotuProgress
    ensures { OnOpen (OnFed (Fed number message.now) (came_end status.AsksItself)) (came_end status.Closed)
        session.old.inside.value result session.new.inside.value }
{
    let Some(mut inside) = take(alloc, session) else {
        return ended(Status::Closed);
    };
    let came = feed_held(alloc, &mut inside, number, message);
    put(session, inside);
    came
}

fn feed_held(alloc: Global, held: &mut Held, number: u64, message: &[u8]) -> YimarotuProgress
    ensures { OnFed (Fed number message.now) (came_end status.AsksItself) held.old result held.new }
{
    match held {
        Held::Fed(session) => feed(alloc, session, number, message),
        Held::Driven(_) => ended(Status::AsksItself),
    }
}

fn feed(alloc: Global, session: &mut Session, number: u64, message: &[u8]) -> YimarotuProgress
    ensures { Fed number message.now session.old result session.new }
{
    match WireMessage::from_wire(alloc, message) {
        Ok(found) => {
            let response = DnsResponse::from_message(found.message);
            told(session.feed(number, Ok(response)))
        }
        Err(error) => unread(error),
    }
}

/// Goes on with the look-up of a number by a failure of its question.
#[unsafe(no_mangle)]
pub extern "C" fn yimarotu_fail(
    alloc: Global,
    session: &mut YimarotuSession,
    number: u64,
    failure: u8,
) -> YimarotuProgress
    ensures { OnOpen (OnFed (Fails number failure) (came_end status.AsksItself)) (came_end status.Closed)
        session.old.inside.value result session.new.inside.value }
{
    let Some(mut inside) = take(alloc, session) else {
        return ended(Status::Closed);
    };
    let came = fail_held(&mut inside, number, failure);
    put(session, inside);
    came
}

fn fail_held(held: &mut Held, number: u64, failure: u8) -> YimarotuProgress
    ensures { OnFed (Fails number failure) (came_end status.AsksItself) held.old result held.new }
{
    match held {
        Held::Fed(session) => fail(session, number, failure),
        Held::Driven(_) => ended(Status::AsksItself),
    }
}

fn fail(session: &mut Session, number: u64, failure: u8) -> YimarotuProgress
    ensures { Fails number failure session.old result session.new }
{
    match failure_of(failure) {
        Some(error) => told(session.feed(number, Err(error))),
        None => ended(Status::Kind),
    }
}

// The failure of a number.
fn failure_of(number: u8) -> Option<NetError>
    ensures { IsFailure number result }
{
    match number {
        1 => Some(NetError::Timeout),
        2 => Some(NetError::Message("upstream not reached")),
        3 => Some(NetError::Message("upstream failed")),
        4 => Some(NetError::OutOfMemory),
        _ => None,
    }
}

/// Forgets the look-up of a number, at a moment (milliseconds).
#[unsafe(no_mangle)]
pub extern "C" fn yimarotu_cancel(
    alloc: Global,
    session: &mut YimarotuSession,
    number: u64,
    moment: u64,
) -> u8
    ensures { OnOpen (Cancelled number moment) (number_of status.Closed) session.old.inside.value result
        session.new.inside.value }
{
    let Some(mut inside) = take(alloc, session) else {
        return Status::Closed.number();
    };
    let ended = cancel(&mut inside, number, moment);
    put(session, inside);
    ended
}

fn cancel(held: &mut Held, number: u64, moment: u64) -> u8
    ensures { Cancelled number moment held.old result held.new }
{
    cancel_status(held.cancel(number, moment)).number()
}

fn cancel_status(ended: Result<bool, AllocError>) -> Status
    ensures { result ≡ cancel_status ended }
{
    match ended {
        Ok(true) => Status::Ok,
        Ok(false) => Status::NoLookup,
        Err(AllocError) => Status::NoMemory,
    }
}

/// Drops from the cache what it has for the names that a look-up of this one would attempt, of a type, and what came for
/// them ahead of a look-up. The look-ups stay.
#[unsafe(no_mangle)]
pub extern "C" fn yimarotu_clear_name(
    alloc: Global,
    session: &mut YimarotuSession,
    name: &[u8],
    record_type: u16,
) -> u8
    ensures { OnOpen (ClearedName name.now record_type) (number_of status.Closed) session.old.inside.value result
        session.new.inside.value }
{
    let Some(mut inside) = take(alloc, session) else {
        return Status::Closed.number();
    };
    let ended = clear_name(&mut inside, name, record_type);
    put(session, inside);
    ended
}

fn clear_name(held: &mut Held, name: &[u8], record_type: u16) -> u8
    ensures { ClearedName name.now record_type held.old result held.new }
{
    match str::from_utf8(name) {
        Ok(name) => {
            let ended = held.clear_name(name, RecordType::from_code(record_type));
            clear_status(ended).number()
        }
        Err(_) => Status::Text.number(),
    }
}

fn clear_status(ended: Result<(), SessionError>) -> Status
    ensures { result ≡ clear_status ended }
{
    match ended {
        Ok(()) => Status::Ok,
        Err(error) => status_of(error),
    }
}

/// Empties the cache, and lets go of what came ahead of a look-up. The look-ups stay.
#[unsafe(no_mangle)]
pub extern "C" fn yimarotu_clear(alloc: Global, session: &mut YimarotuSession) -> u8
    ensures { OnOpen ClearedAll (number_of status.Closed) session.old.inside.value result session.new.inside.value }
{
    let Some(mut inside) = take(alloc, session) else {
        return Status::Closed.number();
    };
    let ended = clear(&mut inside);
    put(session, inside);
    ended
}

fn clear(held: &mut Held) -> u8
    ensures { ClearedAll held.old result held.new }
{
    held.clear();
    Status::Ok.number()
}

// What a call of a session told.
fn told(came: Result<bool, SessionError>) -> YimarotuProgress
    ensures { result ≡ came_of came }
{
    match came {
        Ok(waits) => YimarotuProgress {
            status: Status::Ok.number(),
            fault: 0,
            waits,
        },
        Err(error) => ended(status_of(error)),
    }
}

// The status of an error.
pub(crate) fn status_of(error: SessionError) -> Status
    ensures { result ≡ status_of error }
{
    match error {
        SessionError::OutOfMemory => Status::NoMemory,
        SessionError::InUse => Status::InUse,
        SessionError::NoLookup => Status::NoLookup,
        SessionError::Waits => Status::Waits,
        SessionError::IsDone => Status::Done,
    }
}

// Bytes were no message, or memory ran out.
fn unread(error: WireError) -> YimarotuProgress
    ensures { result ≡ came_unread error }
{
    match error {
        WireError::OutOfMemory => ended(Status::NoMemory),
        WireError::Fault(fault) => YimarotuProgress {
            status: Status::Message.number(),
            fault: reading_number(fault),
            waits: false,
        },
    }
}

fn ended(status: Status) -> YimarotuProgress
    ensures { result ≡ came_end status }
{
    YimarotuProgress {
        status: status.number(),
        fault: 0,
        waits: false,
    }
}

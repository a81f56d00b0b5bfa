//! The questions that look-ups of a session wait for.
ghost use Rattle.std.specs.Prelude.{◌≡◌};
ghost use Rattle.yimarotu_c.specs.Asking.{IsAsked, IsAskedIn, IsQuestionPut, Reads, asked_end, asked_of};
ghost use Rattle.yimarotu_c.specs.Messages.{IsMessagePut};
ghost use Rattle.yimarotu_c.specs.declared.rewriting.YimarotuWritten.{YimarotuWritten};
ghost use Rattle.yimarotu_c.specs.declared.status.Status.TheVariants as status;
ghost use Rattle.yimarotu_session.specs.Messages.{question_message};

use crate::looking_up::status_of;
use crate::rewriting::{YimarotuWritten, put_message, unwritten};
use crate::sessions::{YimarotuSession, put, take};
use crate::status::Status;
use hickory_proto_core::{DnsRequestOptions, Query};
use hickory_proto_wire::ToWireError;
use std::alloc::Global;
use yimarotu_embedded::Held;
use yimarotu_session::Session;
use yimarotu_session::messages::question_message;

/// How the writing of a question ended.
#[repr(C)]
#[derive(Drop)]
pub struct YimarotuAsked {
    /// The number of a status.
    pub status: u8,
    /// The number of a fault; else 0.
    pub fault: u8,
    /// Whether the case of the name is varied.
    pub mixed: bool,
    /// How long the message is, in bytes: where it was written, and where the room is too small for it; else 0.
    pub length: usize,
}

/// Writes the question that the look-up of a number waits for at the front of the room, as a message.
#[unsafe(no_mangle)]
pub extern "C" fn yimarotu_question(
    alloc: Global,
    session: &mut YimarotuSession,
    number: u64,
    room: &mut [u8],
) -> YimarotuAsked
    ensures { Reads (IsAskedIn number) (asked_end status.Closed) session.old.inside.value room.old result
        session.new.inside.value room.new }
{
    let Some(inside) = take(alloc, session) else {
        return ended(Status::Closed);
    };
    let asked = question_in(alloc, &inside, number, room);
    put(session, inside);
    asked
}

fn question_in(alloc: Global, held: &Held, number: u64, room: &mut [u8]) -> YimarotuAsked
    ensures { IsAskedIn number held.now room.old room.new result }
{
    match held {
        Held::Fed(session) => question(alloc, session, number, room),
        Held::Driven(_) => ended(Status::AsksItself),
    }
}

fn question(alloc: Global, session: &Session, number: u64, room: &mut [u8]) -> YimarotuAsked
    ensures { IsAsked number session.now room.old room.new result }
{
    match session.question(number) {
        Ok(question) => put_question(alloc, question, session.request_options(), room),
        Err(error) => ended(status_of(error)),
    }
}

fn put_question(
    alloc: Global,
    question: &Query,
    options: DnsRequestOptions,
    room: &mut [u8],
) -> YimarotuAsked
    ensures { IsQuestionPut question.now options room.old room.new result }
{
    let written = write_question(alloc, question, options, room);
    YimarotuAsked {
        status: written.status,
        fault: written.fault,
        mixed: options.case_randomization,
        length: written.length,
    }
}

#[tactic(auto, using(crate::proofs::Memory::no_memory))]
fn write_question(
    alloc: Global,
    question: &Query,
    options: DnsRequestOptions,
    room: &mut [u8],
) -> YimarotuWritten
    ensures { IsMessagePut (question_message question.now options) 65535 room.old room.new result }
{
    match question_message(alloc, question, options) {
        Ok(message) => put_message(alloc, &message, 65535, room),
        Err(_) => unwritten(ToWireError::OutOfMemory),
    }
}

fn ended(status: Status) -> YimarotuAsked
    ensures { result ≡ asked_end status }
{
    YimarotuAsked {
        status: status.number(),
        fault: 0,
        mixed: false,
        length: 0,
    }
}

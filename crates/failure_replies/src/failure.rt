//! Replies that say that a look-up failed, and those that refuse a query.
ghost use Rattle.std.specs.Prelude.{◌≡◌, ◌≤◌, ◌+◌, ◌++◌, length, vec_len, IfOk, Some};
ghost use Rattle.std.specs.Option.{option_map};
ghost use Rattle.client_queries.specs.Refusals.{head_octets, question_octets, opt_octets, refusal_octets, refusal_code};
ghost use Rattle.failure_replies.specs.Failures.{servfail, info_code, opt_with_error, error_octets, failure_octets};
ghost use Rattle.failure_replies.specs.Rooms.{put_in, within};

use crate::parts::{head_of, opt_of, opt_with_error, question_of};
use crate::room::put_if_fits;
use client_queries::{ClientQuery, Refusal};
use std::alloc::{AllocError, Global};

/// Why a look-up failed (RFC 8914, section 4).
#[derive(Clone, Copy, Debug, PartialEq, Eq)]
pub enum FailureReason {
    /// For another reason, such as too many aliases (section 4.1).
    Other,
    /// It failed before, and that is told again (section 4.14).
    CachedError,
    /// There is no place for it now (section 4.15).
    NotReady,
    /// No server was reached, or none answered in time (section 4.23).
    NoReachableAuthority,
    /// A server answered with a code, with a part of a reply, or with what is no message (section 4.24).
    NetworkError,
}

impl FailureReason {
    /// The INFO-CODE of the extended error.
    pub fn info_code(self) -> u16
        ensures { result ≡ info_code self }
    {
        match self {
            FailureReason::Other => 0,
            FailureReason::CachedError => 13,
            FailureReason::NotReady => 14,
            FailureReason::NoReachableAuthority => 22,
            FailureReason::NetworkError => 23,
        }
    }
}

const SERVFAIL: u16 = 2;

fn joined(alloc: Global, head: &[u8], question: &[u8], opt: &[u8]) -> Result<Vec<u8>, AllocError>
    ensures { IfOk result (λ v. v.items ≡ head.now ++ question.now ++ opt.now) }
{
    let mut out = Vec::new(alloc);
    out.extend_from_slice(head)?;
    out.extend_from_slice(question)?;
    out.extend_from_slice(opt)?;
    Ok(out)
}

/// The reply to these octets that says that the look-up for the query that they are failed (SERVFAIL), with its number
/// and its question, octet for octet, and where it had OPT, OPT of version 0 with the reason.
pub fn fail(
    alloc: Global,
    octets: &[u8],
    query: &ClientQuery,
    reason: FailureReason,
) -> Result<Vec<u8>, AllocError>
    ensures { IfOk result (λ v. v.items ≡ failure_octets octets.now query.now reason) }
{
    let head = head_of(query, SERVFAIL);
    let question = question_of(octets, query.question_end);
    match query.edns {
        None => joined(alloc, &head, question, &[]),
        Some(edns) => joined(
            alloc,
            &head,
            question,
            &opt_with_error(&edns, reason.info_code()),
        ),
    }
}

/// Writes the same to the front of a room, and answers how many octets it has. None, and the room as it was, where it
/// is too small. Takes no memory.
pub fn write_failure(
    octets: &[u8],
    query: &ClientQuery,
    reason: FailureReason,
    room: &mut [u8],
) -> Option<usize>
    ensures length { result ≡ option_map length
        (within (length room.old) (failure_octets octets.now query.now reason)) }
    ensures room { room.new ≡ put_in room.old
        (within (length room.old) (failure_octets octets.now query.now reason)) }
{
    let head = head_of(query, SERVFAIL);
    let question = question_of(octets, query.question_end);
    match query.edns {
        None => put_if_fits(room, &head, question, &[]),
        Some(edns) => {
            let opt = opt_with_error(&edns, reason.info_code());
            put_if_fits(room, &head, question, &opt)
        }
    }
}

/// Writes the reply that refuses a query, as `refuse` makes it, to the front of a room, and answers how many octets it
/// has. None, and the room as it was, where it is too small. Takes no memory.
pub fn write_refusal(
    octets: &[u8],
    query: &ClientQuery,
    refusal: Refusal,
    room: &mut [u8],
) -> Option<usize>
    ensures length { result ≡ option_map length
        (within (length room.old) (refusal_octets octets.now query.now refusal)) }
    ensures room { room.new ≡ put_in room.old
        (within (length room.old) (refusal_octets octets.now query.now refusal)) }
{
    let code = refusal.code();
    let head = head_of(query, code);
    let question = question_of(octets, query.question_end);
    match query.edns {
        None => put_if_fits(room, &head, question, &[]),
        Some(edns) => {
            let opt = opt_of(&edns, code);
            put_if_fits(room, &head, question, &opt)
        }
    }
}

//! Messages that come on a stream in pieces (RFC 1035, section 4.2.2).
ghost use Rattle.std.specs.Prelude.{◌≡◌, ◌++◌, ◌≤◌, ◌<◌, ◌+◌, [], None, Some, true, length, take, drop, slice_get, MatchOption, IfOk, OnOk, OnErr};
ghost use Rattle.std.specs.List.{flat_map};
ghost use Rattle.hickory_proto_core.specs.Errors.{items_or_none};
ghost use Rattle.hickory_proto_core.specs.Name.{label_bytes};
ghost use Rattle.hickory_resolver_tries.specs.Stream.{is_partial, first_of, messages_of, rest_of, Takes, IsCutAnywhere};

use std::alloc::{AllocError, Global};
use std::marker::Model;
use std::mem;

/// A stream of messages, each behind two octets with its length, of which less than a whole message is held.
#[derive(Debug, Drop)]
pub struct MessageStream {
    held: Vec<u8>,
}

impl Model for MessageStream {
    ghost use Rattle.std.specs.Prelude.{◌≡◌, ℕ, List, true};
    ghost use Rattle.hickory_resolver_tries.specs.Stream.{is_partial};

    ghost Value = { List ℕ };

    ghost view = { λ s. s.held.items };

    ghost invariant = { λ s. is_partial s.held.items ≡ true };
}

impl MessageStream {
    /// A stream of which nothing has come.
    pub fn new(alloc: Global) -> MessageStream
        ensures { result ≡ [] }
    {
        MessageStream {
            held: Vec::new(alloc),
        }
    }

    /// Takes the octets of a piece up to the end of the next message, and answers that message and what is left of the
    /// piece; where the piece does not end a message, all of it is held. A message may have no octet. At most 65,536
    /// octets are held. Where memory is refused nothing changes.
    pub fn next<'a>(&mut self, piece: &'a [u8]) -> Result<(Option<Vec<u8>>, &'a [u8]), AllocError>
        ensures taken { IfOk result (λ r. Takes (self.old ++ piece.now) (items_or_none r.0) r.1.now self.new) }
        ensures unchanged { OnErr result (self.new ≡ self.old) }
        ensures partial { is_partial self.new ≡ true }
    {
        let Some(wanted) = wanted(&self.held, piece) else {
            self.held.extend_from_slice(piece)?;
            return Ok((None, &[]));
        };
        let (own, behind) = piece.split_at(wanted);
        self.held.extend_from_slice(own)?;
        let message = without_length(&mut self.held);
        Ok((Some(message), behind))
    }

    /// How many octets are held.
    pub fn held_len(&self) -> usize
        ensures length { result ≡ length self.now }
        ensures bounded { result ≤ 65536 }
    {
        partial_len(&self.held)
    }
}

// How many octets less than a whole message has.
fn partial_len(held: &[u8]) -> usize
    requires { is_partial held.now ≡ true }
    ensures length { result ≡ length held.now }
    ensures bounded { result ≤ 65536 }
{
    held.len()
}

// The octet at a place of two pieces, one behind the other.
fn octet_at(held: &[u8], piece: &[u8], at: usize) -> Option<u8>
    ensures { result ≡ slice_get (held.now ++ piece.now) at }
{
    if at < held.len() {
        return Some(held[at]);
    }
    piece.get(at - held.len()).copied()
}

// How many octets of the piece end the message that is held in part, where it has so many.
fn wanted(held: &[u8], piece: &[u8]) -> Option<usize>
    requires { is_partial held.now ≡ true }
    ensures { MatchOption result (first_of (held.now ++ piece.now) ≡ None)
        (λ n. (n ≤ length piece.now) × (2 ≤ length held.now + n)
        × (first_of (held.now ++ piece.now) ≡ Some (drop 2 (held.now ++ take n piece.now), drop n piece.now))) }
{
    let high = octet_at(held, piece, 0)?;
    let low = octet_at(held, piece, 1)?;
    let end = usize::from(high) * 256 + usize::from(low) + 2;
    let wanted = end.saturating_sub(held.len());
    if piece.len() < wanted {
        None
    } else {
        Some(wanted)
    }
}

// Takes the octets out, without the first two.
fn without_length(held: &mut Vec<u8>) -> Vec<u8>
    requires { 2 ≤ length held.old.items }
    ensures taken { result.items ≡ drop 2 held.old.items }
    ensures empty { held.new.items ≡ [] }
{
    let empty = Vec::new(*held.allocator());
    let mut message = mem::replace(held, empty);
    message.drain(..2);
    message
}

// Takes all of a piece.
fn take_all(
    stream: &mut MessageStream,
    piece: &[u8],
    out: &mut Vec<Vec<u8>>,
) -> Result<(), AllocError>
    ensures messages { OnOk result (label_bytes out.new.items
        ≡ label_bytes out.old.items ++ messages_of (stream.old ++ piece.now)) }
    ensures rest { OnOk result (stream.new ≡ rest_of (stream.old ++ piece.now)) }
    ensures partial { is_partial stream.new ≡ true }
{
    let mut piece = piece;
    'messages: loop {
        let (message, behind) = stream.next(piece)?;
        let Some(message) = message else {
            return Ok(());
        };
        out.push(message)?;
        piece = behind;
    }
}

/// The messages of a stream that comes in these pieces, however it was cut.
pub fn messages_in(alloc: Global, pieces: &[Vec<u8>]) -> Result<Vec<Vec<u8>>, AllocError>
    ensures { IfOk result (λ v. label_bytes v.items ≡ messages_of (flat_map (λ piece. piece.items) pieces.now)) }
{
    let mut stream = MessageStream::new(alloc);
    let mut out = Vec::new(alloc);
    for piece in pieces {
        take_all(&mut stream, piece, &mut out)?;
    }
    Ok(out)
}

/// The cuts of a stream do not matter: its messages, and what is left, are those of its first part and then of what was
/// left of that and the second. With what `MessageStream::next` takes, any pieces of the same octets give the same
/// messages.
pub fn cuts_do_not_matter()
    ensures { IsCutAnywhere }
{}

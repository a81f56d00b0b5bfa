//! Names at a position of a message (RFC 1035, sections 3.1 and 4.1.4).
ghost use Rattle.std.specs.Prelude.{◌≡◌};
ghost use Rattle.hickory_proto_names.specs.Name.{label_bytes};
ghost use Rattle.hickory_proto_wire.specs.Octets.{Gives, with_front};
ghost use Rattle.hickory_proto_wire.specs.Names.{piece_at, labels_at, name_at};
ghost use Rattle.hickory_proto_wire.specs.ReadNames.{IsFront};

use crate::name_measure::{labels_place, measure_at};
use crate::read_names::ReadNames;
use crate::reader::{octet_at, octets_at};
use crate::wire_error::{WireError, WireFault};
use hickory_proto_names::Name;
use std::alloc::Global;

// What a name goes on with.
#[derive(Clone, Copy, Debug)]
pub(crate) enum Piece {
    // Its end.
    Root,
    // A label of so many octets.
    Label(usize),
    // What stands at another position.
    Pointer(usize),
}

// Where the reading of a name is.
#[derive(Clone, Copy, Debug)]
pub(crate) struct Walk {
    // Where the labels since the last pointer began.
    pub(crate) start: usize,
    pub(crate) at: usize,
    // How many octets the rest of the name may take.
    pub(crate) left: usize,
    // How many pointers it may go by.
    pub(crate) jumps: usize,
}

#[tactic(auto, unfolding(crate::specs::Names::piece_at))]
pub(crate) fn piece_at(bytes: &[u8], at: usize) -> Result<(Piece, usize), WireError>
    ensures { Gives (λ x. x) result (piece_at bytes.now at) }
{
    let (first, after) = octet_at(bytes, at)?;
    if first == 0 {
        return Ok((Piece::Root, after));
    }
    if first < 64 {
        return Ok((Piece::Label(usize::from(first)), after));
    }
    if first < 192 {
        return Err(WireError::Fault(WireFault::BadLabel));
    }
    let (low, after) = octet_at(bytes, after)?;
    Ok((
        Piece::Pointer((usize::from(first) - 192) * 256 + usize::from(low)),
        after,
    ))
}

// Adds the labels from there on, and answers the position behind the name.
#[tactic(auto, unfolding(crate::specs::Names::labels_at))]
fn labels_at(
    alloc: Global,
    labels: &mut Vec<Vec<u8>>,
    steps: usize,
    bytes: &[u8],
    walk: Walk,
) -> Result<usize, WireError>
    ensures { Gives (λ end. (label_bytes labels.new.items, end)) result
        (with_front (label_bytes labels.old.items) (labels_at steps bytes.now walk)) }
{
    if steps == 0 {
        return Err(WireError::Fault(WireFault::NameTooLong));
    }
    let (piece, after) = piece_at(bytes, walk.at)?;
    match piece {
        Piece::Root => Ok(after),
        Piece::Label(len) => {
            if walk.left.saturating_sub(1) <= len {
                return Err(WireError::Fault(WireFault::NameTooLong));
            }
            let (label, after) = octets_at(len, bytes, after)?;
            labels.push(Vec::from_slice(alloc, label)?)?;
            let behind = Walk {
                start: walk.start,
                at: after,
                left: walk.left - (len + 1),
                jumps: walk.jumps,
            };
            labels_at(alloc, labels, steps - 1, bytes, behind)
        }
        Piece::Pointer(target) => {
            if walk.jumps == 0 {
                return Err(WireError::Fault(WireFault::TooManyPointers));
            }
            if walk.start <= target {
                return Err(WireError::Fault(WireFault::PointerNotBack));
            }
            let there = Walk {
                start: target,
                at: target,
                left: walk.left,
                jumps: walk.jumps - 1,
            };
            labels_at(alloc, labels, steps - 1, bytes, there)?;
            Ok(after)
        }
    }
}

// The name there with labels of its own, and the position behind it.
#[tactic(auto, unfolding(crate::specs::Names::name_at))]
pub(crate) fn own_name_at(
    alloc: Global,
    bytes: &[u8],
    at: usize,
) -> Result<(Name, usize), WireError>
    ensures { Gives (λ x. x) result (name_at bytes.now at) }
{
    let mut labels = Vec::new(alloc);
    let start = Walk {
        start: at,
        at,
        left: 255,
        jumps: 128,
    };
    let end = labels_at(alloc, &mut labels, 256, bytes, start)?;
    match Name::from_labels(labels) {
        Ok(name) => Ok((name, end)),
        Err(_) => unreachable!(),
    }
}

// The name there, and the position behind it. It shares its labels with a name that was read before, where the labels
// of both stand at one place.
pub(crate) fn name_at(
    names: &mut ReadNames<'_>,
    bytes: &[u8],
    at: usize,
) -> Result<(Name, usize), WireError>
    requires { IsFront bytes.now names.old }
    ensures exact { Gives (λ x. x) result (name_at bytes.now at) }
    ensures same { names.new ≡ names.old }
{
    let place = labels_place(bytes, at)?;
    if let Some(name) = names.known(place) {
        let (_, end) = measure_at(bytes, at)?;
        return Ok((Clone::clone(name)?, end));
    }
    let (name, end) = own_name_at(names.alloc(), bytes, at)?;
    Ok((names.remembered(place, name)?, end))
}

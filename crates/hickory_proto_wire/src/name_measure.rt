//! Names at a position of a message, walked over without taking memory (RFC 1035, section 4.1.4).
ghost use Rattle.std.specs.Prelude.{◌≤◌, Ok, IfOk};
ghost use Rattle.hickory_proto_wire.specs.Octets.{Gives};
ghost use Rattle.hickory_proto_wire.specs.Names.{labels_at};
ghost use Rattle.hickory_proto_wire.specs.LabelsPlace.{measured, measure, place_from, labels_place};

use crate::reader::octets_at;
use crate::wire_error::{WireError, WireFault};
use crate::wire_name::{Piece, Walk, piece_at};

// How many labels the rest of a name has, and the position behind it.
#[tactic(auto, unfolding(crate::specs::Names::labels_at))]
pub(crate) fn measure_from(
    steps: usize,
    bytes: &[u8],
    walk: Walk,
) -> Result<(usize, usize), WireError>
    ensures exact { Gives (λ x. x) result (measured (labels_at steps bytes.now walk)) }
    ensures few { IfOk result (λ x. x.0 ≤ steps) }
{
    if steps == 0 {
        return Err(WireError::Fault(WireFault::NameTooLong));
    }
    let (piece, after) = piece_at(bytes, walk.at)?;
    match piece {
        Piece::Root => Ok((0, after)),
        Piece::Label(len) => {
            if walk.left.saturating_sub(1) <= len {
                return Err(WireError::Fault(WireFault::NameTooLong));
            }
            let (_, after) = octets_at(len, bytes, after)?;
            let behind = Walk {
                start: walk.start,
                at: after,
                left: walk.left - (len + 1),
                jumps: walk.jumps,
            };
            let (labels, end) = measure_from(steps - 1, bytes, behind)?;
            Ok((labels + 1, end))
        }
        Piece::Pointer(target) => {
            if walk.jumps == 0 {
                return Err(WireError::Fault(WireFault::TooManyPointers));
            }
            if walk.start <= target {
                return Err(WireError::Fault(WireFault::PointerNotBack));
            }
            let there = Walk {
                start: target,
                at: target,
                left: walk.left,
                jumps: walk.jumps - 1,
            };
            let (labels, _) = measure_from(steps - 1, bytes, there)?;
            Ok((labels, after))
        }
    }
}

// How many labels the name there has, and the position behind it.
pub(crate) fn measure_at(bytes: &[u8], at: usize) -> Result<(usize, usize), WireError>
    ensures exact { Gives (λ x. x) result (measure bytes.now at) }
    ensures few { IfOk result (λ x. x.0 ≤ 256) }
{
    let start = Walk {
        start: at,
        at,
        left: 255,
        jumps: 128,
    };
    measure_from(256, bytes, start)
}

// Where the labels of the name there stand.
pub(crate) fn labels_place(bytes: &[u8], at: usize) -> Result<usize, WireError>
    ensures { Gives (λ place. place) result (Ok (labels_place bytes.now at)) }
{
    place_from(128, bytes, at)
}

// The place that so many pointers lead to from there.
#[tactic(auto, unfolding(crate::specs::LabelsPlace::place_from))]
fn place_from(pointers: usize, bytes: &[u8], at: usize) -> Result<usize, WireError>
    ensures { Gives (λ place. place) result (Ok (place_from pointers bytes.now at)) }
{
    if pointers == 0 {
        return Ok(at);
    }
    match piece_at(bytes, at) {
        Ok((Piece::Pointer(target), _)) => place_from(pointers - 1, bytes, target),
        Err(WireError::OutOfMemory) => Err(WireError::OutOfMemory),
        _ => Ok(at),
    }
}

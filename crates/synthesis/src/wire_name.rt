//! Names at the front of a record's data, where they are not compressed (RFC 3597, section 4).
ghost use Rattle.std.specs.Prelude.{◌≡◌, IfOk};
ghost use Rattle.hickory_proto_core.specs.Name.{label_bytes};
ghost use Rattle.synthesis.specs.WireNames.{named, read_behind, read_name};

use hickory_proto_core::Name;
use std::alloc::{AllocError, Global};
use std::marker::Model;

// How many labels a name has at the most, and the root's length behind them (RFC 1035, section 2.3.4).
const LONGEST: u8 = 128;

/// A name that stands at the front of some bytes, and the bytes behind it.
#[derive(Debug, Drop)]
pub struct WireName {
    pub name: Name,
    pub rest: Vec<u8>,
}

impl Model for WireName {
    ghost use Rattle.synthesis.specs.WireNames.{WireNameValue};

    ghost Value = { WireNameValue };

    ghost view = { λ w. record { name = w.name; rest = w.rest.items } };
}

/// The name at the front of these bytes, if there is one.
pub fn read_name(alloc: Global, bytes: &[u8]) -> Result<Option<WireName>, AllocError>
    ensures { IfOk result (λ n. n ≡ read_name bytes.now) }
{
    read_behind(Vec::new(alloc), LONGEST, bytes)
}

// The name of these labels and those at the front of the bytes, of which there may be so many with the root's.
fn read_behind(
    mut labels: Vec<Vec<u8>>,
    more: u8,
    bytes: &[u8],
) -> Result<Option<WireName>, AllocError>
    ensures { IfOk result (λ n. n ≡ read_behind (label_bytes labels.items) more bytes.now) }
{
    if more == 0 {
        return Ok(None);
    }
    let [count, rest @ ..] = bytes else {
        return Ok(None);
    };
    let count = usize::from(*count);
    if count == 0 {
        return named(labels, rest);
    }
    if 63 < count || rest.len() < count {
        return Ok(None);
    }
    let label = to_vec(*labels.allocator(), &rest[..count])?;
    labels.push(label)?;
    read_behind(labels, more - 1, &rest[count..])
}

// The name of these labels, where they are one.
fn named(labels: Vec<Vec<u8>>, rest: &[u8]) -> Result<Option<WireName>, AllocError>
    ensures { IfOk result (λ n. n ≡ named (label_bytes labels.items) rest.now) }
{
    let rest = to_vec(*labels.allocator(), rest)?;
    match Name::from_labels(labels) {
        Ok(name) => Ok(Some(WireName { name, rest })),
        Err(_) => Ok(None),
    }
}

/// A copy of the bytes.
pub fn to_vec(alloc: Global, bytes: &[u8]) -> Result<Vec<u8>, AllocError>
    ensures { IfOk result (λ made. made.items ≡ bytes.now) }
{
    let mut made = Vec::new(alloc);
    made.extend_from_slice(bytes)?;
    Ok(made)
}

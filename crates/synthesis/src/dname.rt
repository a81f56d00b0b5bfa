//! Aliases that are made of a DNAME record (RFC 6672).
ghost use Rattle.std.specs.Prelude.{◌≡◌, ◌++◌, take, length, IfOk, OnOk};
ghost use Rattle.hickory_proto_core.specs.Name.{NameValue, label_bytes};
ghost use Rattle.synthesis.specs.Dname.{is_made, is_substitution, substituted};

use crate::wire_name::{read_name, to_vec};
use hickory_proto_core::Name;
use std::alloc::{AllocError, Global};

/// Whether a name leads to the target by a DNAME record with these data, whose owner is so many of the name's last
/// labels.
pub fn is_substitution(
    alloc: Global,
    name: &Name,
    count: usize,
    target: &Name,
    bytes: &[u8],
) -> Result<bool, AllocError>
    ensures { IfOk result (λ is. is ≡ is_substitution name.now count target.now bytes.now) }
{
    match read_name(alloc, bytes)? {
        Some(dname) => {
            Ok(dname.rest.is_empty() && is_made(alloc, name, count, target, &dname.name)?)
        }
        None => Ok(false),
    }
}

// Whether the target is the name with its last labels replaced, so many.
fn is_made(
    alloc: Global,
    name: &Name,
    count: usize,
    target: &Name,
    by: &Name,
) -> Result<bool, AllocError>
    ensures { IfOk result (λ is. is ≡ is_made name.now count target.now by.now) }
{
    match Name::from_labels(substituted(alloc, name, count, by)?) {
        Ok(made) => Ok(*target == made),
        Err(_) => Ok(false),
    }
}

// The labels of the name, of which the last ones are replaced, so many.
fn substituted(
    alloc: Global,
    name: &Name,
    count: usize,
    by: &Name,
) -> Result<Vec<Vec<u8>>, AllocError>
    ensures { IfOk result (λ ls. label_bytes ls.items ≡ substituted name.now count by.now) }
{
    let labels = name.labels();
    let kept = labels.len().saturating_sub(count);
    let mut made = Vec::new(alloc);
    add_labels(alloc, &mut made, &labels[..kept])?;
    add_labels(alloc, &mut made, by.labels())?;
    Ok(made)
}

/// Puts copies of labels behind others.
pub fn add_labels(
    alloc: Global,
    made: &mut Vec<Vec<u8>>,
    labels: &[Vec<u8>],
) -> Result<(), AllocError>
    ensures { OnOk result
        (label_bytes made.new.items ≡ label_bytes made.old.items ++ label_bytes labels.now) }
{
    for label in labels {
        made.push(to_vec(alloc, label)?)?;
    }
    Ok(())
}

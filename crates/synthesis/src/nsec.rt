//! What an NSEC record denies (RFC 4034, section 4; RFC 8198, section 5).
ghost use Rattle.std.specs.Prelude.{◌≡◌, ℕ, IfOk};
ghost use Rattle.hickory_proto_core.specs.Name.{name_cmp};
ghost use Rattle.synthesis.specs.Nsec.{denies_name, denies_type, is_before, is_between, is_delegation, is_hidden, is_name_denied, is_type_denied, lacks_type};

use crate::type_bits::has_type;
use crate::wire_name::{WireName, read_name};
use hickory_proto_core::Name;
use std::alloc::{AllocError, Global};
use std::cmp::Ordering;

/// Whether an NSEC record of this owner and with these data says that there is no such name.
pub fn is_name_denied(
    alloc: Global,
    owner: &Name,
    bytes: &[u8],
    name: &Name,
) -> Result<bool, AllocError>
    ensures { IfOk result (λ is. is ≡ is_name_denied owner.now bytes.now name.now) }
{
    match read_name(alloc, bytes)? {
        Some(next) => Ok(denies_name(owner, &next, name)),
        None => Ok(false),
    }
}

/// Whether an NSEC record of this owner and with these data says that the name has no records of a type, by its code.
pub fn is_type_denied(
    alloc: Global,
    owner: &Name,
    bytes: &[u8],
    name: &Name,
    code: u16,
) -> Result<bool, AllocError>
    ensures { IfOk result (λ is. is ≡ is_type_denied owner.now bytes.now name.now code) }
{
    match read_name(alloc, bytes)? {
        Some(next) => Ok(denies_type(owner, &next, name, code)),
        None => Ok(false),
    }
}

fn denies_name(owner: &Name, next: &WireName, name: &Name) -> bool
    ensures { result ≡ denies_name owner.now next.now name.now }
{
    is_between(owner, &next.name, name)
        && !name.zone_of(&next.name)
        && !is_hidden(owner, &next.rest, name)
}

fn denies_type(owner: &Name, next: &WireName, name: &Name, code: u16) -> bool
    ensures { result ≡ denies_type owner.now next.now name.now code }
{
    let is_bare = is_between(owner, &next.name, name)
        && name.zone_of(&next.name)
        && !is_hidden(owner, &next.rest, name);
    is_bare || (*owner == *name && lacks_type(&next.rest, code))
}

// Whether a name is behind the owner and before the next one. The last NSEC record of a zone names its apex.
fn is_between(owner: &Name, next: &Name, name: &Name) -> bool
    ensures { result ≡ is_between owner.now next.now name.now }
{
    is_before(owner, name)
        && (is_before(name, next) || (!is_before(owner, next) && next.zone_of(name)))
}

/// Whether a name is before another in canonical order (RFC 4034, section 6.1).
pub fn is_before(a: &Name, b: &Name) -> bool
    ensures { result ≡ is_before a.now b.now }
{
    matches!(a.cmp(b), Ordering::Less)
}

// Whether a name is below the owner in another zone, or below a DNAME record: of such names the record says nothing.
fn is_hidden(owner: &Name, bits: &[u8], name: &Name) -> bool
    ensures { result ≡ is_hidden owner.now bits.now name.now }
{
    owner.zone_of(name) && (is_delegation(bits) || has_type(bits, 39))
}

/// Whether these types say that another zone begins at the name.
pub fn is_delegation(bits: &[u8]) -> bool
    ensures { result ≡ is_delegation bits.now }
{
    has_type(bits, 2) && !has_type(bits, 6)
}

/// Whether the bit of the type is not set, nor that of an alias. Where another zone begins, only a DS record is of this
/// one.
pub fn lacks_type(bits: &[u8], code: u16) -> bool
    ensures { result ≡ lacks_type bits.now code }
{
    !has_type(bits, code) && !has_type(bits, 5) && (!is_delegation(bits) || code == 43)
}

//! What NSEC3 records say (RFC 5155; RFC 8198, section 5.2).
ghost use Rattle.std.specs.Prelude.{◌≡◌, ◌++◌, ◌∷◌, ◌<◌, length, nat_eq, IfOk, OnOk};
ghost use Rattle.std.specs.Option.{option_map};
ghost use Rattle.std.specs.Cmp.Lexicographic.{pointwise};
ghost use Rattle.sha1.specs.Sha1.{sha1};
ghost use Rattle.hickory_proto_core.specs.Name.{canonical_form, label_bytes, label_fault, lower_label};
ghost use Rattle.synthesis.specs.Nsec3.{chain_octets, chain_of, counted, covers, encloses, hash_of, is_bare, is_between_if, is_between_owners, is_in_chain, is_opt_out, is_usable, iterated, hashed_owner, name_unless, owner_of, read_chain, read_nsec3, starred};

use crate::base32hex::base32hex;
use crate::dname::add_labels;
use crate::nsec::{is_before, is_delegation, lacks_type};
use crate::type_bits::has_type;
use crate::wire_name::to_vec;
use hickory_proto_core::Name;
use sha1::Sha1;
use std::alloc::{AllocError, Global};
use std::marker::Model;

// With more iterations a resolver takes the zone for unsigned (RFC 9276, section 3.2), and makes nothing of its records.
const MOST_ITERATIONS: u16 = 100;

/// The data of an NSEC3 record (RFC 5155, section 3.2).
#[derive(Debug, Drop)]
pub struct Nsec3<'a> {
    pub algorithm: u8,
    pub flags: u8,
    pub iterations: u16,
    pub salt: &'a [u8],
    /// The hash of the next name in the order of the hashes.
    pub next: &'a [u8],
    /// The types of which the name has records.
    pub bits: &'a [u8],
}

impl<'a> Model for Nsec3<'a> {
    ghost use Rattle.synthesis.specs.Nsec3.{Nsec3Value};

    ghost Value = { Nsec3Value };

    ghost view = { λ n. record {
      algorithm = n.algorithm;
      flags = n.flags;
      iterations = n.iterations;
      salt = n.salt.now;
      next = n.next.now;
      bits = n.bits.now;
    } };
}

/// The records of a zone whose names are hashed alike (RFC 5155, section 7.1).
#[derive(Debug, Drop)]
pub struct Chain {
    pub zone: Name,
    pub iterations: u16,
    pub salt: Vec<u8>,
}

impl Model for Chain {
    ghost use Rattle.synthesis.specs.Nsec3.{ChainValue};

    ghost Value = { ChainValue };

    ghost view = { λ c. record { zone = c.zone; iterations = c.iterations; salt = c.salt.items } };
}

/// The data at the front of these bytes, if they are such.
pub fn read_nsec3(bytes: &[u8]) -> Option<Nsec3<'_>>
    ensures { result ≡ read_nsec3 bytes.now }
{
    let [algorithm, flags, high, low, rest @ ..] = bytes else {
        return None;
    };
    let (salt, rest) = counted(rest)?;
    let (next, bits) = counted(rest)?;
    Some(Nsec3 {
        algorithm: *algorithm,
        flags: *flags,
        iterations: 256 * u16::from(*high) + u16::from(*low),
        salt,
        next,
        bits,
    })
}

// A count at the front of the bytes, and so many behind it; and what stands behind those.
fn counted(bytes: &[u8]) -> Option<(&[u8], &[u8])>
    ensures { option_map (λ p. (p.0.now, p.1.now)) result ≡ counted bytes.now }
{
    let [count, rest @ ..] = bytes else {
        return None;
    };
    let count = usize::from(*count);
    if rest.len() < count {
        return None;
    }
    Some(rest.split_at(count))
}

// Whether denials may be made of a record.
fn is_usable(n: &Nsec3) -> bool
    ensures { result ≡ is_usable n.now }
{
    n.algorithm == 1 && n.flags <= 1 && n.iterations <= MOST_ITERATIONS
}

// Whether names of unsigned zones may be left out (RFC 5155, section 6).
fn is_opt_out(n: &Nsec3) -> bool
    ensures { result ≡ is_opt_out n.now }
{
    n.flags == 1
}

/// The chain of a zone that a record with these data belongs to, where denials may be made of it.
pub fn chain_of(alloc: Global, zone: &Name, bytes: &[u8]) -> Result<Option<Chain>, AllocError>
    ensures { IfOk result (λ chain. chain ≡ chain_of zone.now bytes.now) }
{
    let Some(n) = read_nsec3(bytes) else {
        return Ok(None);
    };
    if !is_usable(&n) {
        return Ok(None);
    }
    Ok(Some(Chain {
        zone: Clone::clone(zone)?,
        iterations: n.iterations,
        salt: to_vec(alloc, n.salt)?,
    }))
}

/// How the names of a chain are hashed, as octets: the iterations in two of them, and the salt.
pub fn chain_octets(alloc: Global, chain: &Chain) -> Result<Vec<u8>, AllocError>
    ensures { IfOk result (λ octets. octets.items ≡ chain_octets chain.now) }
{
    let mut octets = Vec::new(alloc);
    octets.push((chain.iterations / 256) as u8)?;
    octets.push((chain.iterations % 256) as u8)?;
    octets.extend_from_slice(&chain.salt)?;
    Ok(octets)
}

/// The chain of a zone whose names are hashed as these octets say.
pub fn read_chain(alloc: Global, zone: &Name, octets: &[u8]) -> Result<Option<Chain>, AllocError>
    ensures { IfOk result (λ chain. chain ≡ read_chain zone.now octets.now) }
{
    let [high, low, salt @ ..] = octets else {
        return Ok(None);
    };
    Ok(Some(Chain {
        zone: Clone::clone(zone)?,
        iterations: 256 * u16::from(*high) + u16::from(*low),
        salt: to_vec(alloc, salt)?,
    }))
}

// Whether the owner is directly below the zone of the chain, and names are hashed as the chain's are.
fn is_in_chain(chain: &Chain, owner: &Name, n: &Nsec3) -> bool
    ensures { result ≡ is_in_chain chain.now owner.now n.now }
{
    is_usable(n)
        && n.iterations == chain.iterations
        && is_same_salt(n.salt, &chain.salt)
        && owner.labels().len() == chain.zone.labels().len() + 1
        && chain.zone.zone_of(owner)
}

fn is_same_salt(a: &[u8], b: &[u8]) -> bool
    ensures { result ≡ pointwise nat_eq a.now b.now }
{
    a == b
}

// ---- hashes of names (RFC 5155, section 5)

/// The owner of the record of a name, or of its wildcard, where it can have one.
pub fn hashed_owner(
    alloc: Global,
    chain: &Chain,
    star: bool,
    name: &Name,
) -> Result<Option<Name>, AllocError>
    ensures { IfOk result (λ owner. owner ≡ hashed_owner chain.now star name.now) }
{
    let octets = canonical(alloc, star, name.labels())?;
    owner_of(
        alloc,
        chain,
        &iterated(&chain.salt, chain.iterations, &octets),
    )
}

// The owner that a hash has in the zone of the chain.
fn owner_of(alloc: Global, chain: &Chain, hash: &[u8]) -> Result<Option<Name>, AllocError>
    ensures { IfOk result (λ owner. owner ≡ owner_of chain.now hash.now) }
{
    let mut labels = Vec::new(alloc);
    labels.push(base32hex(alloc, hash)?)?;
    add_labels(alloc, &mut labels, chain.zone.labels())?;
    Ok(named(labels))
}

// The name of these labels, where they are one.
fn named(labels: Vec<Vec<u8>>) -> Option<Name>
    ensures { result ≡ name_unless (label_fault (label_bytes labels.items)) (label_bytes labels.items) }
{
    Name::from_labels(labels).ok()
}

// The digest of some octets and the salt, and of it and the salt so many times more.
fn iterated(salt: &[u8], more: u16, octets: &[u8]) -> [u8; 20]
    ensures { result ≡ iterated salt.now more octets.now }
{
    let mut hash = salted(octets, salt);
    for _ in 0..more {
        hash = salted(&hash, salt);
    }
    hash
}

fn salted(octets: &[u8], salt: &[u8]) -> [u8; 20]
    ensures { result ≡ sha1 (octets.now ++ salt.now) }
{
    let mut hasher = Sha1::new();
    hasher.update(octets);
    hasher.update(salt);
    hasher.finalize()
}

// The labels as they stand on the wire, in lower case, and `*` before them where it is wanted.
fn canonical(alloc: Global, star: bool, labels: &[Vec<u8>]) -> Result<Vec<u8>, AllocError>
    requires { label_fault (label_bytes labels.now) ≡ None }
    ensures { IfOk result
        (λ form. form.items ≡ canonical_form (starred star (label_bytes labels.now))) }
{
    let mut form = Vec::new(alloc);
    if star {
        push_label(&mut form, b"*")?;
    }
    push_labels(&mut form, labels)?;
    Ok(form)
}

fn push_labels(form: &mut Vec<u8>, labels: &[Vec<u8>]) -> Result<(), AllocError>
    requires { label_fault (label_bytes labels.now) ≡ None }
    ensures { OnOk result
        (form.new.items ≡ form.old.items ++ canonical_form (label_bytes labels.now)) }
{
    for label in labels {
        push_label(form, label)?;
    }
    form.push(0)?;
    Ok(())
}

// Puts a label behind the others: its length, and then its bytes in lower case.
fn push_label(form: &mut Vec<u8>, label: &[u8]) -> Result<(), AllocError>
    requires { length label.now < 256 }
    ensures { OnOk result
        (form.new.items ≡ form.old.items ++ length label.now ∷ lower_label label.now) }
{
    form.push(label.len() as u8)?;
    for byte in label {
        form.push(byte.to_ascii_lowercase())?;
    }
    Ok(())
}

// ---- what a record says of the owner of a hash

/// Whether a record says that names below it have it as their closest encloser (RFC 5155, section 8.3).
pub fn encloses(chain: &Chain, hashed: &Name, owner: &Name, bytes: &[u8]) -> bool
    ensures { result ≡ encloses chain.now hashed.now owner.now (read_nsec3 bytes.now) }
{
    match read_nsec3(bytes) {
        Some(n) => {
            *owner == *hashed
                && is_in_chain(chain, owner, &n)
                && !(is_delegation(n.bits) || has_type(n.bits, 39))
        }
        None => false,
    }
}

/// Whether a record says that its name has no records of a type, by its code (RFC 5155, section 8.5).
pub fn is_bare(chain: &Chain, hashed: &Name, code: u16, owner: &Name, bytes: &[u8]) -> bool
    ensures { result ≡ is_bare chain.now hashed.now code owner.now (read_nsec3 bytes.now) }
{
    match read_nsec3(bytes) {
        Some(n) => {
            *owner == *hashed && is_in_chain(chain, owner, &n) && lacks_type(n.bits, code)
        }
        None => false,
    }
}

/// Whether a record says that no name has a hash, not even one of an unsigned zone (RFC 8198, section 5.2).
pub fn covers(
    alloc: Global,
    chain: &Chain,
    hashed: &Name,
    owner: &Name,
    bytes: &[u8],
) -> Result<bool, AllocError>
    ensures { IfOk result
        (λ is. is ≡ covers chain.now hashed.now owner.now (read_nsec3 bytes.now)) }
{
    let Some(n) = read_nsec3(bytes) else {
        return Ok(false);
    };
    if !is_in_chain(chain, owner, &n) || is_opt_out(&n) {
        return Ok(false);
    }
    match owner_of(alloc, chain, n.next)? {
        Some(next) => Ok(is_between_owners(owner, &next, hashed)),
        None => Ok(false),
    }
}

// Whether an owner is between two in the order of the hashes. The last record of a zone names the first.
fn is_between_owners(owner: &Name, next: &Name, hashed: &Name) -> bool
    ensures { result ≡ is_between_owners owner.now next.now hashed.now }
{
    if is_before(owner, next) {
        is_before(owner, hashed) && is_before(hashed, next)
    } else {
        is_before(owner, hashed) || is_before(hashed, next)
    }
}

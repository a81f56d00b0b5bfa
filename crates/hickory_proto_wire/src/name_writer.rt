//! Names as octets (RFC 1035, sections 3.1 and 4.1.4).
ghost use Rattle.std.specs.Prelude.{◌≡◌, ◌++◌, ◌∷◌, [], ◌+◌, ◌<◌, ◌≤◌, ◌/◌, ◌%◌, false, nat_eq, None, length, IfOk, OnOk};
ghost use Rattle.std.specs.Cmp.Lexicographic.{pointwise};
ghost use Rattle.std.specs.List.{list_any};
ghost use Rattle.hickory_proto_names.specs.Name.{label_bytes, is_long_label};
ghost use Rattle.hickory_proto_wire.specs.Writing.{pointer_octets};
ghost use Rattle.hickory_proto_wire.specs.Made.{name_flaw};
ghost use Rattle.hickory_proto_wire.specs.Written.{are_same, place_of, name_octets, whole_count, noted};

use crate::octet_writer::put_string;
use hickory_proto_names::Name;
use std::alloc::AllocError;
use std::marker::Model;

// How many places are kept to point to.
const MOST_PLACES: usize = 64;

// A name that stands in the message from one of its labels on, and where.
#[derive(Drop)]
pub(crate) struct Place<'a> {
    labels: &'a [Vec<u8>],
    at: u16,
}

impl<'a> Model for Place<'a> {
    ghost use Rattle.hickory_proto_names.specs.Name.{label_bytes};
    ghost use Rattle.hickory_proto_wire.specs.Place.{PlaceValue};

    ghost Value = { PlaceValue };

    ghost view = { λ p. record { labels = label_bytes p.labels.now; at = p.at } };
}

// Whether these are the same octets: case counts.
fn is_same(a: &[u8], b: &[u8]) -> bool
    ensures { result ≡ pointwise nat_eq a.now b.now }
{
    a == b
}

// Whether these are the same labels, octet for octet.
fn are_same(a: &[Vec<u8>], b: &[Vec<u8>]) -> bool
    ensures { result ≡ are_same (label_bytes a.now) (label_bytes b.now) }
{
    if a.len() != b.len() {
        return false;
    }
    for i in 0..a.len() {
        if !is_same(&a[i], &b[i]) {
            return false;
        }
    }
    true
}

// Where these labels stand first.
fn place_of(places: &[Place<'_>], labels: &[Vec<u8>]) -> Option<u16>
    ensures { result ≡ place_of places.now (label_bytes labels.now) }
{
    for i in 0..places.len() {
        let place = &places[i];
        if are_same(place.labels, labels) {
            return Some(place.at);
        }
    }
    None
}

// A pointer to a position of 14 bits.
fn put_pointer(out: &mut Vec<u8>, at: u16) -> Result<(), AllocError>
    ensures { OnOk result (out.new.items ≡ out.old.items ++ pointer_octets at) }
{
    out.push((at / 256 % 64) as u8 + 192)?;
    out.push((at % 256) as u8)?;
    Ok(())
}

// The labels of a name, up to where it goes on as one that stands before. Answers how many they are.
fn put_labels(
    places: &[Place<'_>],
    out: &mut Vec<u8>,
    labels: &[Vec<u8>],
) -> Result<usize, AllocError>
    requires { list_any is_long_label (label_bytes labels.now) ≡ false }
    ensures octets { OnOk result (out.new.items ≡ out.old.items ++ name_octets places.now (label_bytes labels.now)) }
    ensures whole { IfOk result (λ n. n ≡ whole_count places.now (label_bytes labels.now)) }
{
    for count in 0..labels.len() {
        if let Some(at) = place_of(places, &labels[count..]) {
            put_pointer(out, at)?;
            return Ok(count);
        }
        put_string(out, &labels[count])?;
    }
    out.push(0)?;
    Ok(labels.len())
}

// A name. Answers how many of its labels stand there.
pub(crate) fn put_name(
    places: &[Place<'_>],
    out: &mut Vec<u8>,
    name: &Name,
) -> Result<usize, AllocError>
    ensures octets { OnOk result (out.new.items ≡ out.old.items ++ name_octets places.now name.now.labels) }
    ensures whole { IfOk result (λ n. n ≡ whole_count places.now name.now.labels) }
    ensures valid { name_flaw name.now ≡ None }
    ensures small { OnOk result (length out.new.items ≤ length out.old.items + 255) }
{
    let whole = put_labels(places, out, name.labels())?;
    Ok(whole)
}

// Keeps the places of so many labels of a name that begins there.
pub(crate) fn note_name<'a>(
    places: &mut Vec<Place<'a>>,
    whole: usize,
    at: usize,
    name: &'a Name,
) -> Result<(), AllocError>
    requires { whole ≤ length name.now.labels }
    ensures { OnOk result (places.new.items ≡ noted places.old.items whole at name.now.labels) }
{
    let labels = name.labels();
    let mut at = at;
    for i in 0..whole {
        if 16384 <= at || MOST_PLACES <= places.len() {
            return Ok(());
        }
        places.push(Place {
            labels: &labels[i..],
            at: at as u16,
        })?;
        at += labels[i].as_slice().len() + 1;
    }
    Ok(())
}

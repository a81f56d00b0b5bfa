//! The weights of octets and of names.
ghost use Rattle.std.specs.Prelude.{◌≡◌};
ghost use Rattle.std.specs.List.{sum_by};
ghost use Rattle.hickory_proto_names.specs.Name.{label_bytes};
ghost use Rattle.hickory_proto_weights.specs.Weights.{saturated, octets_weight, strings_weight, name_weight};

use crate::choices::{NAME, PIECE};
use hickory_proto_core::Name;

// A label, a string, or all data of an unknown kind.
pub(crate) fn octets_weight(octets: &[u8]) -> u64
    ensures { result ≡ saturated (octets_weight octets.now) }
{
    PIECE.saturating_add(octets.len() as u64)
}

// Labels, or strings.
pub(crate) fn strings_weight(strings: &[Vec<u8>]) -> u64
    ensures { result ≡ saturated (strings_weight (label_bytes strings.now)) }
{
    let mut total: u64 = 0;
    for octets in strings {
        total = total.saturating_add(octets_weight(octets));
    }
    total
}

pub(crate) fn name_weight(name: &Name) -> u64
    ensures { result ≡ saturated (name_weight name.now) }
{
    NAME.saturating_add(strings_weight(name.labels()))
}

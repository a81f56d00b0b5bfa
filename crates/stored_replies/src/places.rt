//! Where the TTLs of records stand in a message that was written of them (RFC 1035, section 4.1).
ghost use Rattle.std.specs.Prelude.{◌≡◌, ◌≤◌, ◌++◌, None, length, get_or, drop, OnOk, IfOk};
ghost use Rattle.hickory_proto_core.specs.Name.{label_bytes, label_fault};
ghost use Rattle.stored_replies.specs.Walk.{behind_labels, behind_data, behind_records, places_in, HaveNames, HaveFields};

use hickory_proto_core::{Name, Record};
use std::alloc::AllocError;

// What stands behind so many octets.
pub(crate) fn behind(count: usize, octets: &[u8]) -> &[u8]
    ensures { result.now ≡ drop count octets.now }
{
    &octets[octets.len().min(count)..]
}

// The octet at a position, or 0 behind the last.
pub(crate) fn octet_at(octets: &[u8], at: usize) -> u8
    ensures { result ≡ get_or octets.now at 0 }
{
    octets.get(at).copied().unwrap_or(0)
}

fn behind_labels<'o>(labels: &[Vec<u8>], octets: &'o [u8]) -> &'o [u8]
    ensures { result.now ≡ behind_labels (label_bytes labels.now) octets.now }
{
    let mut rest = octets;
    for label in labels {
        if 192 <= octet_at(rest, 0) {
            return behind(2, rest);
        }
        rest = behind(label.as_slice().len() + 1, rest);
    }
    behind(1, rest)
}

// What stands behind a name that was written.
pub(crate) fn behind_name<'o>(name: &Name, octets: &'o [u8]) -> &'o [u8]
    ensures behind { result.now ≡ behind_labels name.now.labels octets.now }
    ensures valid { label_fault name.now.labels ≡ None }
{
    behind_labels(name.labels(), octets)
}

// What stands behind the data of a record, from its type on.
fn behind_data(fields: &[u8]) -> &[u8]
    ensures { result.now ≡ behind_data fields.now }
{
    let size = usize::from(octet_at(fields, 8)) * 256 + usize::from(octet_at(fields, 9));
    behind(10 + size, fields)
}

// Notes the places of TTLs in a message of so many octets, of which these are the last, and begin with the records.
// Answers what stands behind them.
pub(crate) fn note_places<'o>(
    places: &mut Vec<u16>,
    total: usize,
    records: &[Record],
    octets: &'o [u8],
) -> Result<&'o [u8], AllocError>
    requires short { total ≤ 65535 }
    requires fields { HaveFields records.now octets.now }
    ensures places { OnOk result (places.new.items ≡ places.old.items ++ places_in total records.now octets.now) }
    ensures behind { IfOk result (λ rest. rest.now ≡ behind_records records.now octets.now) }
    ensures valid { OnOk result (HaveNames records.now) }
{
    let mut rest = octets;
    for i in 0..records.len() {
        let found = &records[i];
        let fields = behind_name(&found.name, rest);
        places.push((total.saturating_sub(fields.len()) + 4) as u16)?;
        rest = behind_data(fields);
    }
    Ok(rest)
}

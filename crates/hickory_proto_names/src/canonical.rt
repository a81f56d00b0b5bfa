//! The canonical form of labels, by which names are compared and hashed in one piece.
ghost use Rattle.std.specs.Prelude.{◌≡◌, ◌<◌, ◌≤◌, ◌+◌, ◌++◌, ◌∷◌, IfOk, None, length};
ghost use Rattle.hickory_proto_names.specs.Canonical.{kept_bytes, IsWithin};
ghost use Rattle.hickory_proto_names.specs.Name.{canonical_form, label_bytes, label_fault, lower_label};

use arrayvec::ArrayVec;
use std::alloc::{AllocError, Global};
use std::marker::Model;

// How many bytes of a canonical form are kept in the value itself.
const SHORT: usize = 54;

// A canonical form. One that is short takes no memory of its own, and its length stands right before its bytes, so that
// the processor fetches both at one go.
#[derive(Drop)]
enum Canonical {
    Short(u8, [u8; SHORT]),
    Long(Vec<u8>),
}

// Labels that a name shares with its copies, and beside them their canonical form. It comes first, since it is what is
// read most.
#[derive(Drop)]
pub(crate) struct SharedLabels {
    canonical: Canonical,
    labels: Vec<Vec<u8>>,
}

impl Model for SharedLabels {
    ghost use Rattle.std.specs.Prelude.{◌≡◌, List, ℕ};
    ghost use Rattle.hickory_proto_names.specs.Canonical.{kept_bytes, IsWithin};
    ghost use Rattle.hickory_proto_names.specs.Name.{canonical_form, label_bytes};

    ghost Value = { List (List ℕ) };

    ghost view = { λ s. label_bytes s.labels.items };

    ghost invariant = { λ s.
        (kept_bytes s.canonical ≡ canonical_form (label_bytes s.labels.items)) × IsWithin s.canonical };
}

impl SharedLabels {
    pub(crate) fn new(labels: Vec<Vec<u8>>) -> Result<SharedLabels, AllocError>
        requires { label_fault (label_bytes labels.items) ≡ None }
        ensures { IfOk result (λ s. s ≡ label_bytes labels.items) }
    {
        let form = canonical_form(&labels);
        let canonical = kept(*labels.allocator(), form.as_slice())?;
        Ok(SharedLabels { canonical, labels })
    }

    pub(crate) fn canonical(&self) -> &[u8]
        ensures { result.now ≡ canonical_form self.now }
    {
        match &self.canonical {
            Canonical::Short(len, bytes) => &bytes[..*len as usize],
            Canonical::Long(form) => form.as_slice(),
        }
    }

    pub(crate) fn as_slice(&self) -> &[Vec<u8>]
        ensures labels { label_bytes result.now ≡ self.now }
        ensures count { length result.now ≡ length self.now }
    {
        self.labels.as_slice()
    }

    pub(crate) fn allocator(&self) -> Global {
        *self.labels.allocator()
    }

    pub(crate) fn into_labels(self) -> Vec<Vec<u8>>
        ensures { label_bytes result.items ≡ self }
    {
        let SharedLabels { labels, .. } = self;
        labels
    }

    // A copy of the labels, to write to.
    pub(crate) fn to_labels(&self) -> Result<Vec<Vec<u8>>, AllocError>
        ensures { IfOk result (λ v. label_bytes v.items ≡ self.now) }
    {
        Ok(self.labels.clone()?)
    }
}

// A canonical form as it is kept.
fn kept(alloc: Global, form: &[u8]) -> Result<Canonical, AllocError>
    ensures bytes { IfOk result (λ c. kept_bytes c ≡ form.now) }
    ensures within { IfOk result IsWithin }
{
    if SHORT < form.len() {
        return Ok(Canonical::Long(Vec::from_slice(alloc, form)?));
    }
    let mut bytes = [0; SHORT];
    bytes[..form.len()].copy_from_slice(form);
    Ok(Canonical::Short(form.len() as u8, bytes))
}

// The labels as they stand on the wire, in lower case.
pub(crate) fn canonical_form(labels: &[Vec<u8>]) -> ArrayVec<u8, 255>
    requires { label_fault (label_bytes labels.now) ≡ None }
    ensures { result.items ≡ canonical_form (label_bytes labels.now) }
{
    let mut form = ArrayVec::new();
    for label in labels {
        add_label(&mut form, label);
    }
    form.push(0);
    form
}

// Puts a label behind the others: its length, and then its bytes in lower case.
fn add_label(form: &mut ArrayVec<u8, 255>, label: &[u8])
    requires { length form.old.items + length label.now < 255 }
    ensures { form.new.items ≡ form.old.items ++ length label.now ∷ lower_label label.now }
{
    form.push(label.len() as u8);
    for byte in label {
        form.push(byte.to_ascii_lowercase());
    }
}

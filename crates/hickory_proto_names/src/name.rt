//! Domain names.
ghost use Rattle.std.specs.Prelude.{◌≡◌, ◌≤◌, ◌<◌, ◌+◌, min, ◌↔◌, ◌&&◌, ◌++◌, ◌≢◌, true, false, [], None, Some, length, map, reverse, fold, nat_lt, IsTrue, IfOk, IfErr, OnOk, IsOkUnless, nat_eq};
ghost use Rattle.std.specs.List.{list_any};
ghost use Rattle.std.specs.Cmp.Lexicographic.{pointwise, slice_cmp};
ghost use Rattle.std.specs.Ordering.{nat_cmp};
ghost use Rattle.hickory_proto_names.specs.Name.{NameValue, label_bytes, label_fault, lower_label, lower_labels, labels_eq, labels_cmp, is_empty_label, is_long_label, wire_len, is_bytes, are_bytes, num_labels_of, appended_name, append_fault, trimmed_name, base_of, localhost, is_zone_of};

use crate::canonical::canonical_form;
use crate::label_list::LabelList;
use crate::name_error::NameError;
use std::alloc::{AllocError, Global};
use std::cmp::Ordering;
use std::hash::{Hash, Hasher};
use std::marker::Model;

/// A domain name: labels of 1 to 63 bytes, and the mark of a fully qualified name (RFC 1035, section
/// 2.3). On the wire it takes at most 255 bytes. Names are equal, ordered and hashed without ASCII case.
#[derive(Debug, Drop)]
pub struct Name {
    labels: LabelList,
    fqdn: bool,
}

impl Model for Name {
    ghost use Rattle.std.specs.Prelude.{◌≡◌, None, IsTrue};
    ghost use Rattle.hickory_proto_names.specs.Name.{NameValue, label_fault, are_bytes};

    ghost Value = { NameValue };

    ghost view = { λ n. record { labels = n.labels; fqdn = n.fqdn } };

    ghost invariant = { λ n. (label_fault n.labels ≡ None) × IsTrue (are_bytes n.labels) };
}

impl Name {
    /// The relative name without labels.
    pub fn new(alloc: Global) -> Name
        ensures { result ≡ record { labels = []; fqdn = false } }
    {
        Name {
            labels: LabelList::own(Vec::new(alloc)),
            fqdn: false,
        }
    }

    /// As `Name::new`.
    pub fn default(alloc: Global) -> Name
        ensures { result ≡ record { labels = []; fqdn = false } }
    {
        Name::new(alloc)
    }

    /// The root: no labels, fully qualified.
    pub fn root(alloc: Global) -> Name
        ensures { result ≡ record { labels = []; fqdn = true } }
    {
        Name {
            labels: LabelList::own(Vec::new(alloc)),
            fqdn: true,
        }
    }

    /// The fully qualified name of these labels, or the first of these faults: an empty label, a label
    /// of more than 63 bytes, a name of more than 255 bytes. Takes no memory.
    pub fn from_labels(labels: Vec<Vec<u8>>) -> Result<Name, NameError>
        ensures ok { IfOk result (λ n. n ≡ record { labels = label_bytes labels.items; fqdn = true }) }
        ensures valid { OnOk result (label_fault (label_bytes labels.items) ≡ None) }
        ensures err { IfErr result (λ e. label_fault (label_bytes labels.items) ≡ Some e) }
    {
        if has_empty_label(&labels) {
            return Err(NameError::EmptyLabel);
        }
        if has_long_label(&labels) {
            return Err(NameError::LabelTooLong);
        }
        if 255 < wire_length(&labels) {
            return Err(NameError::NameTooLong);
        }
        Ok(Name {
            labels: LabelList::own(labels),
            fqdn: true,
        })
    }

    /// The labels, from the first to the last.
    pub fn labels(&self) -> &[Vec<u8>]
        ensures labels { label_bytes result.now ≡ self.now.labels }
        ensures valid { label_fault self.now.labels ≡ None }
        ensures bytes { IsTrue (are_bytes self.now.labels) }
    {
        self.labels.as_slice()
    }

    /// Whether the name is fully qualified.
    pub fn is_fqdn(&self) -> bool
        ensures { result ≡ self.now.fqdn }
    {
        self.fqdn
    }

    /// Sets or takes away the mark of a fully qualified name.
    pub fn set_fqdn(&mut self, fqdn: bool)
        ensures { self.new ≡ record self.old { fqdn = fqdn } }
    {
        self.fqdn = fqdn;
    }

    /// How many labels there are, not counting a first one that is exactly `*` (RFC 4034, section
    /// 3.1.3).
    pub fn num_labels(&self) -> u8
        ensures { result ≡ num_labels_of self.now.labels }
    {
        let labels = self.labels();
        let count = labels.len();
        match labels.first() {
            Some(label) if label.as_slice() == b"*".as_slice() => (count - 1) as u8,
            _ => count as u8,
        }
    }

    /// The fully qualified name of these labels and then the domain's. It is `NameTooLong` where that
    /// takes more than 255 bytes on the wire (RFC 1035, section 2.3.4), before any memory is taken.
    pub fn append_domain(self, domain: &Name) -> Result<Name, NameError>
        ensures ok { IfOk result (λ n. n ≡ appended_name self domain.now) }
        ensures fits { OnOk result (wire_len (self.labels ++ domain.now.labels) ≤ 255) }
        ensures err { IfErr result (λ e. e ≡ append_fault self domain.now) }
    {
        if 256 < wire_length(self.labels()) + wire_length(domain.labels()) {
            return Err(NameError::NameTooLong);
        }
        let Name { labels, .. } = self;
        let mut labels = labels.into_vec()?;
        labels.extend_with_clones(domain.labels())?;
        Ok(Name {
            labels: LabelList::shared(labels)?,
            fqdn: true,
        })
    }

    /// The fully qualified name of the last `n` labels, or a copy where there are fewer than `n`.
    pub fn trim_to(&self, n: usize) -> Result<Name, NameError>
        ensures ok { IfOk result (λ m. m ≡ trimmed_name n self.now) }
        ensures err { IsOkUnless result NameError.OutOfMemory }
    {
        let all = self.labels();
        let count = all.len();
        if count < n {
            return self.clone();
        }
        let mut labels = Vec::new(self.labels.allocator());
        labels.extend_with_clones(&all[count - n..])?;
        Ok(Name {
            labels: LabelList::shared(labels)?,
            fqdn: true,
        })
    }

    /// The fully qualified name of all labels but the first, or a copy of a name without labels.
    pub fn base_name(&self) -> Result<Name, NameError>
        ensures ok { IfOk result (λ m. m ≡ base_of self.now) }
        ensures err { IsOkUnless result NameError.OutOfMemory }
    {
        match self.labels().len() {
            0 => self.clone(),
            count => self.trim_to(count - 1),
        }
    }

    /// Whether `localhost.` is a zone of it (RFC 6761, section 6.3).
    pub fn is_localhost(&self) -> bool
        ensures { result ≡ is_zone_of localhost self.now }
    {
        match self.labels() {
            [.., last] => label_eq(b"localhost", last),
            [] => false,
        }
    }

    /// Whether the other name's labels end with this one's, without case. The marks are not looked at.
    pub fn zone_of(&self, name: &Name) -> bool
        ensures { result ≡ is_zone_of self.now name.now }
    {
        let (zone, labels) = (self.labels(), name.labels());
        zone.len() <= labels.len() && labels_eq(zone, &labels[labels.len() - zone.len()..])
    }

    /// A copy of every field.
    pub fn clone(&self) -> Result<Name, NameError>
        ensures ok { IfOk result (λ n. n ≡ self.now) }
        ensures err { IsOkUnless result NameError.OutOfMemory }
    {
        Ok(Clone::clone(self)?)
    }

    // The same name, of which copies take no memory.
    pub(crate) fn share(self) -> Result<Name, NameError>
        ensures ok { IfOk result (λ n. n ≡ self) }
        ensures err { IsOkUnless result NameError.OutOfMemory }
    {
        let Name { labels, fqdn } = self;
        let labels = labels.share()?;
        Ok(Name { labels, fqdn })
    }
}

/// A copy equals its source.
impl Clone for Name {
    ghost use Rattle.std.specs.Prelude.{◌≡◌};

    ghost is_clone = { λ name copy. copy ≡ name };

    fn clone(&self) -> Result<Name, AllocError> {
        let labels = self.labels.clone()?;
        Ok(Name {
            labels,
            fqdn: self.fqdn,
        })
    }
}

impl PartialEq for Name {
    ghost use Rattle.std.specs.Cmp.{partial_equiv_from_equiv};
    ghost use Rattle.hickory_proto_names.specs.Name.{name_eq};
    ghost use Rattle.hickory_proto_names.specs.NameLaws.{name_equiv};

    ghost eq = { name_eq };

    ghost laws = { partial_equiv_from_equiv name_equiv };

    fn eq(&self, other: &Name) -> bool {
        self.fqdn == other.fqdn && same_labels(&self.labels, &other.labels)
    }
}

impl Eq for Name {
    ghost use Rattle.hickory_proto_names.specs.NameLaws.{name_equiv};

    ghost laws = { name_equiv };
}

impl Ord for Name {
    ghost use Rattle.std.specs.Cmp.Rules.{comparing};
    ghost use Rattle.std.proofs.Common.{rules};
    ghost use Rattle.hickory_proto_names.specs.Name.{name_cmp};
    ghost use Rattle.hickory_proto_names.specs.NameLaws.{name_ties};

    ghost cmp = { name_cmp };

    ghost total = { Prim.search (comparing, rules) };

    ghost matches_partial_cmp = { Prim.search (comparing, rules) };

    ghost matches_eq = { name_ties };

    fn cmp(&self, other: &Name) -> Ordering {
        match self.fqdn.cmp(&other.fqdn) {
            Ordering::Equal => labels_cmp(self.labels(), other.labels()),
            marks => marks,
        }
    }
}

impl PartialOrd for Name {
    ghost use Rattle.std.specs.Ordering.{as_partial_cmp};
    ghost use Rattle.hickory_proto_names.specs.Name.{name_cmp};
    ghost use Rattle.hickory_proto_names.specs.NameLaws.{name_partial_order};

    ghost partial_cmp = { as_partial_cmp name_cmp };

    ghost laws = { name_partial_order };

    fn partial_cmp(&self, other: &Name) -> Option<Ordering> {
        Some(self.cmp(other))
    }
}

impl Hash for Name {
    ghost use Rattle.hickory_proto_names.specs.Name.{name_hash_input};
    ghost use Rattle.hickory_proto_names.specs.NameLaws.{name_respects_eq};

    ghost hash_input = { name_hash_input };

    ghost respects_eq = { name_respects_eq };

    fn hash<H: Hasher>(&self, state: &mut H) {
        self.fqdn.hash(state);
        match self.labels.canonical() {
            Some(form) => state.write(form),
            None => state.write(canonical_form(self.labels()).as_slice()),
        }
    }
}

fn has_empty_label(labels: &[Vec<u8>]) -> bool
    ensures { result ≡ list_any is_empty_label (label_bytes labels.now) }
{
    labels.iter().any(|label| label.is_empty())
}

fn has_long_label(labels: &[Vec<u8>]) -> bool
    ensures { result ≡ list_any is_long_label (label_bytes labels.now) }
{
    labels.iter().any(|label| 63 < label.len())
}

// How many bytes the labels take on the wire, or 256 where that is more than 255.
fn wire_length(labels: &[Vec<u8>]) -> usize
    ensures value { result ≡ min 256 (wire_len (label_bytes labels.now)) }
    ensures bytes { result < 256 → IsTrue (are_bytes (label_bytes labels.now)) }
{
    let mut length = 1;
    for label in labels {
        length += byte_count(label) + 1;
        if 255 < length {
            return 256;
        }
    }
    length
}

// How many bytes a label has, each of which is a byte.
fn byte_count(label: &[u8]) -> usize
    ensures count { result ≡ length label.now }
    ensures bytes { IsTrue (is_bytes label.now) }
{
    label.len()
}

// Whether two labels are equal without ASCII case. Most equal labels are spelled alike, which takes less
// time to find.
fn label_eq(a: &[u8], b: &[u8]) -> bool
    ensures { result ≡ pointwise nat_eq (lower_label a.now) (lower_label b.now) }
{
    a == b || a.eq_ignore_ascii_case(b)
}

// Whether the labels are equal without ASCII case. Where both have their canonical form, one comparison tells.
fn same_labels(a: &LabelList, b: &LabelList) -> bool
    ensures { result ≡ labels_eq a.now b.now }
{
    match (a.canonical(), b.canonical()) {
        (Some(a), Some(b)) => a == b,
        _ => labels_eq(a.as_slice(), b.as_slice()),
    }
}

fn labels_eq(a: &[Vec<u8>], b: &[Vec<u8>]) -> bool
    ensures { result ≡ labels_eq (label_bytes a.now) (label_bytes b.now) }
{
    if a.len() != b.len() {
        return false;
    }
    for i in 0..a.len() {
        if !label_eq(&a[i], &b[i]) {
            return false;
        }
    }
    true
}

fn label_cmp(a: &[u8], b: &[u8]) -> Ordering
    ensures { result ≡ slice_cmp nat_cmp (lower_label a.now) (lower_label b.now) }
{
    a.iter()
        .map(|b| b.to_ascii_lowercase())
        .cmp(b.iter().map(|b| b.to_ascii_lowercase()))
}

// From the last label to the first; the list that runs out is less.
fn labels_cmp(a: &[Vec<u8>], b: &[Vec<u8>]) -> Ordering
    ensures { result ≡ labels_cmp (label_bytes a.now) (label_bytes b.now) }
{
    for i in 0..a.len().min(b.len()) {
        match label_cmp(&a[a.len() - 1 - i], &b[b.len() - 1 - i]) {
            Ordering::Equal => {}
            order => return order,
        }
    }
    a.len().cmp(&b.len())
}

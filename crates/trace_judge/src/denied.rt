//! What is denied, and until when.
ghost use Rattle.std.specs.Prelude.{◌≡◌, ◌+◌, ◌<◌, ◌^◌, length, IfOk, OnOk};
ghost use Rattle.trace_judge.specs.Index.{NotesDenial, latest_of, type_key, whole_below, whole_key};
ghost use Rattle.hickory_proto_core.specs.Name.{trimmed_name};

use crate::denials::{Denial, Denied};
use crate::latest::{LatestMoments, later};
use hickory_proto_core::{DNSClass, Name, Query, RecordType};
use std::alloc::{AllocError, Global};
use std::marker::Model;

/// Denied types, and names that are denied whole, with the latest moment at which such a denial runs out.
#[derive(Drop)]
pub struct Denials {
    types: LatestMoments,
    names: LatestMoments,
}

impl Model for Denials {
    ghost use Rattle.trace_judge.specs.Index.{DeniedValue};

    ghost Value = { DeniedValue };

    ghost view = { λ d. record { types = d.types; names = d.names } };
}

impl Denials {
    ghost use Rattle.std.specs.Prelude.{[]};
    ghost use Rattle.trace_judge.specs.Index.{ForgetsDenials, denied_at};

    /// Nothing is denied.
    pub fn new(alloc: Global) -> Denials
        ensures { result ≡ record { types = []; names = [] } }
    {
        Denials {
            types: LatestMoments::new(alloc),
            names: LatestMoments::new(alloc),
        }
    }

    /// One more denial.
    pub fn add(&mut self, new: &Denial) -> Result<(), AllocError>
        ensures { OnOk result (NotesDenial new.now self.old self.new) }
    {
        let deadline = new.deadline();
        match new.denied {
            Denied::WholeName => {
                let key = whole_key(new.dns_class, Clone::clone(&new.name)?);
                self.names.note(key, deadline)
            }
            Denied::OneType(record_type) => {
                let key = type_key(new.dns_class, &new.name, record_type)?;
                self.types.note(key, deadline)
            }
        }
    }

    /// The latest moment, in milliseconds, at which a denial of this runs out, if there is one.
    pub fn of(
        &self,
        dns_class: DNSClass,
        name: &Name,
        denied: Denied,
    ) -> Result<Option<u64>, AllocError>
        ensures { IfOk result (λ latest. latest ≡ denied_at self.now dns_class name.now denied) }
    {
        let whole = whole_of(&self.names, dns_class, name)?;
        match denied {
            Denied::WholeName => Ok(whole),
            Denied::OneType(record_type) => {
                let key = type_key(dns_class, name, record_type)?;
                Ok(latest_of(self.types.of(&key), whole))
            }
        }
    }

    /// Forgets what ran out before a moment, in milliseconds, where there has come to be much.
    pub fn forget(&mut self, moment: u64)
        ensures { ForgetsDenials moment self.old self.new }
    {
        self.types.forget(moment);
        self.names.forget(moment);
    }
}

// Until when the name, or one that it is below, is denied whole.
fn whole_of(
    names: &LatestMoments,
    dns_class: DNSClass,
    name: &Name,
) -> Result<Option<u64>, AllocError>
    ensures { IfOk result
        (λ latest. latest ≡ whole_below names.now dns_class name.now (length name.now.labels + 1)) }
{
    let mut latest = None;
    for count in 0..label_count(name) + 1 {
        let key = whole_key(dns_class, trimmed(name, count)?);
        latest = latest_of(names.of(&key), latest);
    }
    Ok(latest)
}

/// How many labels a name has.
pub fn label_count(name: &Name) -> usize
    ensures value { result ≡ length name.now.labels }
    ensures bound { result < 2 ^ 63 }
{
    name.labels().len()
}

/// The last labels of a name, so many of them.
pub fn trimmed(name: &Name, count: usize) -> Result<Name, AllocError>
    ensures { IfOk result (λ n. n ≡ trimmed_name count name.now) }
{
    match name.trim_to(count) {
        Ok(name) => Ok(name),
        Err(_) => Err(AllocError),
    }
}

// The question that stands for a name that is denied whole.
fn whole_key(query_class: DNSClass, mut name: Name) -> Query
    ensures { result ≡ whole_key query_class name }
{
    name.set_fqdn(true);
    Query {
        name,
        query_type: RecordType::ANY,
        query_class,
    }
}

/// The question for a type of a name.
pub fn type_key(
    query_class: DNSClass,
    name: &Name,
    query_type: RecordType,
) -> Result<Query, AllocError>
    ensures { IfOk result (λ q. q ≡ type_key query_class name.now query_type) }
{
    Ok(Query {
        name: Clone::clone(name)?,
        query_type,
        query_class,
    })
}

// The later of two moments, where there are any.
fn latest_of(a: Option<u64>, b: Option<u64>) -> Option<u64>
    ensures { result ≡ latest_of a b }
{
    match a {
        Some(moment) => Some(later(moment, b)),
        None => b,
    }
}

//! The look-ups of one name.
ghost use Rattle.std.specs.Prelude.{◌≡◌, IfOk, OnOk, OnErr, option_copied};
ghost use Rattle.hickory_proto_core.specs.Name.{NameValue};
ghost use Rattle.hickory_resolver_model.specs.Hosts.{append, family, no_addresses, with_lookup};
ghost use Rattle.std.specs.Option.{option_map_or};
ghost use Rattle.hickory_resolver_hosts.specs.HostsTable.{host_at, no_lookups, put_family, unboxed};

use hickory_proto_core::{Name, Query, RecordType};
use hickory_resolver_lookup::Lookup;
use std::alloc::{AllocError, Global};

/// What is known of a name: the look-up of its IPv4 addresses, and that of its IPv6 addresses. They are boxed,
/// so that a table that grows has little to move.
#[derive(Drop)]
pub struct HostLookups {
    pub a: Option<Box<Lookup>>,
    pub aaaa: Option<Box<Lookup>>,
}

impl HostLookups {
    /// What a name has whose only look-up is this one, of this type.
    pub fn only(record_type: RecordType, lookup: Box<Lookup>) -> HostLookups
        ensures { (n : NameValue) → host_at n result ≡ put_family record_type lookup.value (no_lookups n) }
    {
        let known = Some(lookup);
        if record_type.code() == 1 {
            HostLookups {
                a: known,
                aaaa: None,
            }
        } else {
            HostLookups {
                a: None,
                aaaa: known,
            }
        }
    }

    /// The look-up of a type: A is the first, every other type the second.
    pub fn family(&self, record_type: RecordType) -> Option<&Lookup>
        ensures { (n : NameValue) → option_copied result ≡ family record_type (host_at n self.now) }
    {
        if record_type.code() == 1 {
            self.a.as_deref()
        } else {
            self.aaaa.as_deref()
        }
    }

    /// Joins one more look-up of a type to the one that is there. The first one of a type has the question of
    /// this name. A refused call changes nothing.
    pub fn add(
        &mut self,
        alloc: Global,
        name: Name,
        record_type: RecordType,
        lookup: Lookup,
        now: u64,
    ) -> Result<(), AllocError>
        ensures ok { OnOk result ((n : NameValue) →
            host_at n self.new ≡ with_lookup name record_type lookup now (host_at n self.old)) }
        ensures unchanged { OnErr result (self.new ≡ self.old) }
    {
        if record_type.code() == 1 {
            add_lookup(alloc, &mut self.a, name, record_type, lookup, now)
        } else {
            add_lookup(alloc, &mut self.aaaa, name, record_type, lookup, now)
        }
    }
}

#[tactic(auto, using(crate::proofs::Boxes::same_box))]
fn add_lookup(
    alloc: Global,
    kept: &mut Option<Box<Lookup>>,
    name: Name,
    record_type: RecordType,
    lookup: Lookup,
    now: u64,
) -> Result<(), AllocError>
    ensures ok { OnOk result (unboxed kept.new
        ≡ Some (append (option_map_or (λ k. k) (unboxed kept.old) (no_addresses name record_type now)) lookup)) }
    ensures unchanged { OnErr result (kept.new ≡ kept.old) }
{
    if let Some(joined) = kept {
        return match joined.append_in_place(lookup) {
            Ok(()) => Ok(()),
            Err(_) => Err(AllocError),
        };
    }
    *kept = Some(first_lookup(alloc, name, record_type, lookup, now)?);
    Ok(())
}

/// The first look-up of a type, with the question of this name, at this moment (seconds).
pub fn first_lookup(
    alloc: Global,
    name: Name,
    record_type: RecordType,
    lookup: Lookup,
    now: u64,
) -> Result<Box<Lookup>, AllocError>
    ensures { IfOk result (λ first. first.value ≡ append (no_addresses name record_type now) lookup) }
{
    let query = Query::query(name, record_type);
    Ok(Box::new(alloc, lookup.into_answer_to(query, now))?)
}

//! What was received of a type, by owners in canonical order (RFC 4034, section 6.1).
ghost use Rattle.std.specs.Prelude.{◌≡◌, [], Bool, List, true, IfOk, IfSome, OnOk};
ghost use Rattle.std.specs.List.{list_any};
ghost use Rattle.trace_judge.specs.Index.{AddsOwner, ForgetsOwners, any_owner, is_lasting};
ghost use Rattle.trace_judge.specs.MadeIndex.{gap_makes};
ghost use Rattle.trace_judge.specs.declared.receptions.Reception.{Reception};

use crate::denied::{label_count, trimmed};
use crate::gap::{Gap, any_makes};
use crate::receptions::Reception;
use crate::sightings::Seen;
use hickory_proto_core::{DNSClass, Name};
use std::alloc::{AllocError, Global};
use std::collections::BTreeMap;
use std::marker::Model;

// How many owners there are before any are forgotten.
const FEW: usize = 1024;

/// What was received of a type, by its owners.
#[derive(Drop)]
pub struct Owners {
    alloc: Global,
    owners: BTreeMap<Name, Seen>,
    // How many owners there are before any are forgotten.
    many: usize,
}

impl Model for Owners {
    ghost use Rattle.std.specs.Prelude.{List};
    ghost use Rattle.hickory_proto_core.specs.Name.{NameValue};
    ghost use Rattle.trace_judge.specs.declared.receptions.Reception.{Reception};

    ghost Value = { List (NameValue × List Reception) };

    ghost view = { λ o. o.owners.entries };
}

impl Owners {
    /// Nothing was received yet.
    pub fn new(alloc: Global) -> Owners
        ensures { result ≡ [] }
    {
        Owners {
            alloc,
            owners: BTreeMap::new(alloc),
            many: FEW,
        }
    }

    /// One more reception.
    pub fn add(&mut self, new: Reception) -> Result<(), AllocError>
        ensures { OnOk result (AddsOwner new self.old self.new) }
    {
        let owner = Clone::clone(&new.found.name)?;
        let mut seen = self.owners.remove(&owner).unwrap_or(Seen::new(self.alloc));
        seen.add(new)?;
        self.owners.insert(owner, seen)?;
        Ok(())
    }

    /// Forgets what ran out before a moment, in milliseconds, where there has come to be much.
    pub fn forget(&mut self, moment: u64)
        ensures { ForgetsOwners moment self.old self.new }
    {
        if self.owners.len() < self.many {
            return;
        }
        drop_ended(&mut self.owners, moment);
        self.many = FEW.saturating_add(self.owners.len().saturating_mul(2));
    }

    /// The owner that is nearest before a name, or the name itself, and what was received of it.
    pub fn nearest(&self, name: Name) -> Option<(&Name, &Seen)>
        ensures { IfSome result (λ e. (p : List Reception → Bool) → p e.1.now ≡ true
            → list_any (λ o. p o.1) self.now ≡ true) }
    {
        self.owners.range(..=name).next_back()
    }
}

fn drop_ended(owners: &mut BTreeMap<Name, Seen>, moment: u64)
    ensures { ForgetsOwners moment owners.old.entries owners.new.entries }
{
    owners.retain(|_, s| s.is_lasting(moment));
}

/// Whether a record says that a gap is there, and runs out at a moment, in milliseconds, or later. The owners before it
/// are asked first, so that a gap that there is takes no look at all of them.
pub fn any_owner(
    alloc: Global,
    from: u64,
    dns_class: DNSClass,
    gap: &Gap,
    owners: &Owners,
) -> Result<bool, AllocError>
    ensures { IfOk result (λ made. made ≡ any_owner from (gap_makes dns_class gap.now) owners.now) }
{
    if is_near(alloc, from, dns_class, gap, owners)? {
        return Ok(true);
    }
    for (_, seen) in &owners.owners {
        if any_makes(alloc, from, dns_class, gap, seen.as_slice())? {
            return Ok(true);
        }
    }
    Ok(false)
}

// Whether the nearest owner before a name says so, or one of those nearest before the names that it is below: between
// an owner and its next name there may be the names of another zone, which is below the owner.
fn is_near(
    alloc: Global,
    from: u64,
    dns_class: DNSClass,
    gap: &Gap,
    owners: &Owners,
) -> Result<bool, AllocError>
    ensures { IfOk result
        (λ near. near ≡ true → any_owner from (gap_makes dns_class gap.now) owners.now ≡ true) }
{
    let Some((owner, _)) = owners.nearest(Clone::clone(gap.name())?) else {
        return Ok(false);
    };
    let most = label_count(owner);
    for fewer in 0..most {
        let above = trimmed(owner, most - fewer)?;
        if let Some((_, seen)) = owners.nearest(above) {
            if any_makes(alloc, from, dns_class, gap, seen.as_slice())? {
                return Ok(true);
            }
        }
    }
    Ok(false)
}

//! What is kept of the records that say what is not there.
ghost use Rattle.std.specs.Prelude.{◌≡◌, ◌++◌, ◌∷◌, [], ℕ, List, IfOk, OnOk};
ghost use Rattle.hickory_proto_core.specs.Name.{base_of};
ghost use Rattle.hickory_proto_core.specs.Records.{data_of};
ghost use Rattle.trace_judge.specs.Index.{ForgetsGaps, GapsSee, SeesAs, chain_by, chain_record, is_unknown, received_if};
ghost use Rattle.trace_judge.specs.Receptions.{reception_at};
ghost use Rattle.trace_judge.specs.declared.event.Moment.{Moment};
ghost use Rattle.trace_judge.specs.declared.receptions.Reception.{Reception};

use crate::event::Moment;
use crate::owners::Owners;
use crate::receptions::Reception;
use crate::sightings::Sightings;
use hickory_proto_core::{Name, RData, Record};
use std::alloc::{AllocError, Global};
use std::marker::Model;
use synthesis::{Chain, chain_octets, chain_of};

/// NSEC and NSEC3 records by their owners, and the chains of the latter by their zones.
#[derive(Drop)]
pub struct Gaps {
    alloc: Global,
    nsec: Owners,
    nsec3: Owners,
    chains: Sightings,
}

impl Model for Gaps {
    ghost use Rattle.trace_judge.specs.Index.{GapsValue};

    ghost Value = { GapsValue };

    ghost view = { λ g. record { nsec = g.nsec; nsec3 = g.nsec3; chains = g.chains } };
}

impl Gaps {
    /// Nothing was received yet.
    pub fn new(alloc: Global) -> Gaps
        ensures { result ≡ record { nsec = []; nsec3 = []; chains = [] } }
    {
        Gaps {
            alloc,
            nsec: Owners::new(alloc),
            nsec3: Owners::new(alloc),
            chains: Sightings::new(alloc),
        }
    }

    /// NSEC records.
    pub fn nsec(&self) -> &Owners
        ensures { result.now ≡ self.now.nsec }
    {
        &self.nsec
    }

    /// NSEC3 records.
    pub fn nsec3(&self) -> &Owners
        ensures { result.now ≡ self.now.nsec3 }
    {
        &self.nsec3
    }

    /// The chains of NSEC3 records.
    pub fn chains(&self) -> &Sightings
        ensures { result.now ≡ self.now.chains }
    {
        &self.chains
    }

    /// One more reception.
    pub fn add(&mut self, moment: Moment, found: &Record) -> Result<(), AllocError>
        ensures { (from : ℕ) (before : List Reception) → GapsSee from self.old before
            → OnOk result (GapsSee from self.new (before ++ reception_at moment found.now ∷ [])) }
    {
        if is_unknown(47, &found.rdata) {
            return self.nsec.add(copied(moment, found)?);
        }
        if is_unknown(50, &found.rdata) {
            self.nsec3.add(copied(moment, found)?)?;
            return keep_chain(self.alloc, &mut self.chains, moment, found);
        }
        Ok(())
    }

    /// Forgets what ran out before a moment, in milliseconds, where there has come to be much.
    pub fn forget(&mut self, moment: u64)
        ensures { ForgetsGaps moment self.old self.new }
    {
        self.nsec.forget(moment);
        self.nsec3.forget(moment);
        self.chains.forget(moment);
    }
}

fn copied(moment: Moment, found: &Record) -> Result<Reception, AllocError>
    ensures { IfOk result (λ r. r ≡ reception_at moment found.now) }
{
    let found = Clone::clone(found)?;
    Ok(Reception { moment, found })
}

// Whether data are of a type that is kept by its code.
fn is_unknown(wanted: u16, rdata: &RData) -> bool
    ensures { result ≡ is_unknown wanted (data_of rdata.now) }
{
    match rdata {
        RData::Unknown { code, .. } => *code == wanted,
        _ => false,
    }
}

// Keeps the chain of a record, where it is an NSEC3 record that is of one.
fn keep_chain(
    alloc: Global,
    chains: &mut Sightings,
    moment: Moment,
    found: &Record,
) -> Result<(), AllocError>
    ensures { (from : ℕ) (before : List Reception) → SeesAs from chains.old before
        → OnOk result (SeesAs from chains.new
        (before ++ chain_by moment found.now found.now.rdata)) }
{
    match chain_by(alloc, found)? {
        Some(found) => chains.add(Reception { moment, found }),
        None => Ok(()),
    }
}

// The chain of a record, as a record of its zone.
fn chain_by(alloc: Global, found: &Record) -> Result<Option<Record>, AllocError>
    ensures { IfOk result (λ by. (moment : Moment)
        → received_if moment by ≡ chain_by moment found.now found.now.rdata) }
{
    let RData::Unknown { code, bytes } = &found.rdata else {
        return Ok(None);
    };
    if *code != 50 {
        return Ok(None);
    }
    let zone = zone_above(&found.name)?;
    match chain_of(alloc, &zone, bytes)? {
        Some(chain) => Ok(Some(chain_record(alloc, found, &chain)?)),
        None => Ok(None),
    }
}

// All labels of an owner but the first.
fn zone_above(owner: &Name) -> Result<Name, AllocError>
    ensures { IfOk result (λ zone. zone ≡ base_of owner.now) }
{
    match owner.base_name() {
        Ok(zone) => Ok(zone),
        Err(_) => Err(AllocError),
    }
}

// The chain of a record, as a record of its zone.
fn chain_record(alloc: Global, found: &Record, chain: &Chain) -> Result<Record, AllocError>
    ensures { IfOk result (λ r. r ≡ chain_record found.now chain.now) }
{
    Ok(Record {
        name: Clone::clone(&chain.zone)?,
        dns_class: found.dns_class,
        ttl: found.ttl,
        rdata: RData::Unknown {
            code: 51,
            bytes: chain_octets(alloc, chain)?,
        },
    })
}

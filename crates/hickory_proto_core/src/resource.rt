//! Resource records.
ghost use Rattle.std.specs.Prelude.{◌≡◌, ◌-◌, length, IfOk, IsOkUnless};
ghost use Rattle.hickory_proto_core.specs.Records.{data_of, data_eq, data_type, RecordValue};

use crate::net_error::NetError;
use crate::record_data::RData;
use hickory_proto_codes::{DNSClass, RecordType};
use hickory_proto_names::Name;
use std::alloc::AllocError;
use std::marker::Model;

/// A resource record (RFC 1035, section 3.2.1).
#[derive(Debug, Drop)]
pub struct Record {
    /// The owner.
    pub name: Name,
    /// The class.
    pub dns_class: DNSClass,
    /// For how many seconds it may be kept (RFC 2181, section 8).
    pub ttl: u32,
    /// What it says of its owner.
    pub rdata: RData,
}

impl Model for Record {
    ghost use Rattle.hickory_proto_core.specs.Records.{RecordValue, data_of};

    ghost Value = { RecordValue };

    ghost view = { λ r. record { name = r.name; dns_class = r.dns_class; ttl = r.ttl; rdata = data_of r.rdata } };
}

impl Record {
    /// The record of this owner, time to live (seconds) and data in the class of the Internet.
    pub fn from_rdata(name: Name, ttl: u32, rdata: RData) -> Record
        ensures { result ≡ record { name = name; dns_class = DNSClass.IN; ttl = ttl; rdata = data_of rdata } }
    {
        Record {
            name,
            dns_class: DNSClass::IN,
            ttl,
            rdata,
        }
    }

    /// The type of its data.
    pub fn record_type(&self) -> RecordType
        ensures { result ≡ data_type self.now.rdata }
    {
        self.rdata.record_type()
    }

    /// Lowers the time to live by some seconds, to 0 at the least.
    pub fn decrement_ttl(&mut self, seconds: u32)
        ensures { self.new ≡ record self.old { ttl = self.old.ttl - seconds } }
    {
        self.ttl = self.ttl.saturating_sub(seconds);
    }

    /// A copy of every field.
    pub fn clone(&self) -> Result<Record, NetError>
        ensures ok { IfOk result (λ r. r ≡ self.now) }
        ensures err { IsOkUnless result NetError.OutOfMemory }
    {
        Ok(Clone::clone(self)?)
    }
}

/// A copy equals its source.
impl Clone for Record {
    ghost use Rattle.std.specs.Prelude.{◌≡◌};

    ghost is_clone = { λ source copy. copy ≡ source };

    fn clone(&self) -> Result<Record, AllocError> {
        Ok(Record {
            name: Clone::clone(&self.name)?,
            dns_class: self.dns_class,
            ttl: self.ttl,
            rdata: Clone::clone(&self.rdata)?,
        })
    }
}

impl PartialEq for Record {
    ghost use Rattle.std.specs.Cmp.{partial_equiv_from_equiv};
    ghost use Rattle.hickory_proto_core.specs.Records.{record_eq, record_equiv};

    ghost eq = { record_eq };

    ghost laws = { partial_equiv_from_equiv record_equiv };

    fn eq(&self, other: &Record) -> bool {
        self.name == other.name
            && self.dns_class == other.dns_class
            && self.ttl == other.ttl
            && same_data(&self.rdata, &other.rdata)
    }
}

impl Eq for Record {
    ghost use Rattle.hickory_proto_core.specs.Records.{record_equiv};

    ghost laws = { record_equiv };
}

fn same_data(a: &RData, b: &RData) -> bool
    ensures { result ≡ data_eq (data_of a.now) (data_of b.now) }
{
    a == b
}

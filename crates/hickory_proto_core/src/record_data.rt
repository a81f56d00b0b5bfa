//! The data of records.
ghost use Rattle.std.specs.Prelude.{◌≡◌, IfOk, IsOkUnless, option_copied};
ghost use Rattle.hickory_proto_core.specs.Records.{data_of, data_type, address_of, soa_minimum, ns_target};
ghost use Rattle.hickory_proto_codes.specs.Codes.{type_code};

use crate::net_error::NetError;
use hickory_proto_codes::RecordType;
use hickory_proto_names::Name;
use std::alloc::AllocError;
use std::net::{IpAddr, Ipv4Addr, Ipv6Addr};

/// What a record says of its owner (RFC 1035, section 3.2.1). Data are equal where all their fields are:
/// names without case, and bytes as they are.
#[derive(Debug, Drop, PartialEq, Eq)]
pub enum RData {
    /// A host's IPv4 address (RFC 1035, section 3.4.1).
    A(Ipv4Addr),
    /// A host's IPv6 address (RFC 3596, section 2.2).
    AAAA(Ipv6Addr),
    /// The canonical name of an alias (RFC 1035, section 3.3.1).
    CNAME(Name),
    /// An authoritative name server (RFC 1035, section 3.3.11).
    NS(Name),
    /// Another name (RFC 1035, section 3.3.12).
    PTR(Name),
    /// The start of a zone of authority (RFC 1035, section 3.3.13). The times are in seconds.
    SOA {
        /// The primary name server of the zone.
        mname: Name,
        /// The mailbox of the person in charge.
        rname: Name,
        /// The version of the zone.
        serial: u32,
        /// After how long the zone is to be refreshed.
        refresh: u32,
        /// After how long a failed refresh is to be tried again.
        retry: u32,
        /// After how long without a refresh the zone is no longer authoritative.
        expire: u32,
        /// The time to live of negative answers (RFC 2308, section 4).
        minimum: u32,
    },
    /// The location of a service (RFC 2782).
    SRV {
        /// The server of the lowest priority is tried first.
        priority: u16,
        /// The share among servers of one priority.
        weight: u16,
        /// The port of the service.
        port: u16,
        /// The host of the service.
        target: Name,
    },
    /// A mail exchange (RFC 1035, section 3.3.9).
    MX {
        /// The exchange of the lowest preference is tried first.
        preference: u16,
        /// The host of the exchange.
        exchange: Name,
    },
    /// Text strings (RFC 1035, section 3.3.14).
    TXT(Vec<Vec<u8>>),
    /// Data of any other type, as bytes (RFC 3597, section 3). Where the code is that of a type above, it
    /// counts by that type, but has no address, name or number.
    Unknown {
        /// The code of the type.
        code: u16,
        /// The data.
        bytes: Vec<u8>,
    },
}

impl RData {
    /// The type of the record that holds it.
    pub fn record_type(&self) -> RecordType
        ensures { result ≡ data_type (data_of self.now) }
    {
        match self {
            RData::A(_) => RecordType::A,
            RData::AAAA(_) => RecordType::AAAA,
            RData::CNAME(_) => RecordType::CNAME,
            RData::NS(_) => RecordType::NS,
            RData::PTR(_) => RecordType::PTR,
            RData::SOA { .. } => RecordType::SOA,
            RData::SRV { .. } => RecordType::SRV,
            RData::MX { .. } => RecordType::MX,
            RData::TXT(_) => RecordType::TXT,
            RData::Unknown { code, bytes: _ } => RecordType::from(*code),
        }
    }

    /// The address, of A and AAAA data.
    pub fn ip_addr(&self) -> Option<IpAddr>
        ensures { result ≡ address_of self.now }
    {
        match self {
            RData::A(address) => Some(IpAddr::V4(*address)),
            RData::AAAA(address) => Some(IpAddr::V6(*address)),
            _ => None,
        }
    }

    /// The time to live of negative answers that SOA data give, in seconds (RFC 2308, section 4).
    pub fn soa_minimum(&self) -> Option<u32>
        ensures { result ≡ soa_minimum (data_of self.now) }
    {
        match self {
            RData::SOA { minimum, .. } => Some(*minimum),
            _ => None,
        }
    }

    /// The name server that NS data name.
    pub fn ns_target(&self) -> Option<&Name>
        ensures { option_copied result ≡ ns_target (data_of self.now) }
    {
        match self {
            RData::NS(target) => Some(target),
            _ => None,
        }
    }

    /// A copy of every field.
    pub fn clone(&self) -> Result<RData, NetError>
        ensures ok { IfOk result (λ d. data_of d ≡ data_of self.now) }
        ensures err { IsOkUnless result NetError.OutOfMemory }
    {
        Ok(Clone::clone(self)?)
    }
}

/// A copy equals its source.
impl Clone for RData {
    ghost use Rattle.std.specs.Prelude.{◌≡◌};
    ghost use Rattle.hickory_proto_core.specs.Records.{data_of};

    ghost is_clone = { λ source copy. data_of copy ≡ data_of source };

    fn clone(&self) -> Result<RData, AllocError> {
        match self {
            RData::A(address) => Ok(RData::A(*address)),
            RData::AAAA(address) => Ok(RData::AAAA(*address)),
            other => clone_other(other),
        }
    }
}

// A copy of data. Those of addresses are copied without it, so that no room is made for the others.
fn clone_other(source: &RData) -> Result<RData, AllocError>
    ensures { IfOk result (λ copy. data_of copy ≡ data_of source.now) }
{
    match source {
        RData::A(address) => Ok(RData::A(*address)),
        RData::AAAA(address) => Ok(RData::AAAA(*address)),
        RData::CNAME(name) => Ok(RData::CNAME(Clone::clone(name)?)),
        RData::NS(name) => Ok(RData::NS(Clone::clone(name)?)),
        RData::PTR(name) => Ok(RData::PTR(Clone::clone(name)?)),
        RData::SOA {
            mname,
            rname,
            serial,
            refresh,
            retry,
            expire,
            minimum,
        } => Ok(RData::SOA {
            mname: Clone::clone(mname)?,
            rname: Clone::clone(rname)?,
            serial: *serial,
            refresh: *refresh,
            retry: *retry,
            expire: *expire,
            minimum: *minimum,
        }),
        RData::SRV {
            priority,
            weight,
            port,
            target,
        } => Ok(RData::SRV {
            priority: *priority,
            weight: *weight,
            port: *port,
            target: Clone::clone(target)?,
        }),
        RData::MX {
            preference,
            exchange,
        } => Ok(RData::MX {
            preference: *preference,
            exchange: Clone::clone(exchange)?,
        }),
        RData::TXT(strings) => Ok(RData::TXT(strings.clone()?)),
        RData::Unknown { code, bytes } => Ok(RData::Unknown {
            code: *code,
            bytes: bytes.clone()?,
        }),
    }
}

impl From<IpAddr> for RData {
    ghost use Rattle.std.specs.Prelude.{◌≡◌};
    ghost use Rattle.hickory_proto_core.specs.Records.{data_of, data_of_address};

    ghost from_gives = { λ address d. data_of d ≡ data_of_address address };

    fn from(address: IpAddr) -> RData {
        match address {
            IpAddr::V4(address) => RData::A(address),
            IpAddr::V6(address) => RData::AAAA(address),
        }
    }
}

//! What an upstream or a resolver answers where it has no records.
ghost use Rattle.std.specs.Prelude.{◌≡◌, true, None, IfOk, OnErr, IsOkUnless};
ghost use Rattle.hickory_proto_core.specs.Errors.{items_or_none};
ghost use Rattle.hickory_proto_core.specs.NetErrors.{dns_error_holds_memory, error_holds_memory, is_no_records_found, is_nx_domain, no_records_or, soa_of_error};

use crate::bounds_error::BoundsError;
use crate::glue::Glue;
use crate::query::Query;
use crate::resource::Record;
use hickory_proto_codes::ResponseCode;
use hickory_proto_names::NameError;
use std::alloc::{AllocError, AllocFailed};
use std::marker::Model;
use thiserror::Error;

/// Why there are no records to answer with.
#[derive(Debug, Drop, Error)]
pub enum NetError {
    /// A fault that the text tells.
    #[error("{0}")]
    Message(&'static str),
    /// The upstream did not answer in time.
    #[error("request timed out")]
    Timeout,
    /// A name that is none.
    #[error(transparent)]
    Proto(NameError),
    /// An answer that has no records.
    #[error(transparent)]
    Dns(DnsError),
    /// A script or a table of outcomes has none for the question.
    #[error("no outcome")]
    NoOutcome,
    /// Bounds on times to live that were refused.
    #[error(transparent)]
    Bounds(BoundsError),
    /// No memory was left.
    #[error("out of memory")]
    OutOfMemory,
}

/// An answer that has no records.
#[derive(Debug, Drop, Error)]
pub enum DnsError {
    /// A response with a code other than NOERROR and NXDOMAIN.
    #[error("response code {0}")]
    ResponseCode(ResponseCode),
    /// The name does not exist, or has no such records (RFC 2308, section 2).
    #[error("no records found")]
    NoRecordsFound(NoRecords),
}

/// A negative answer (RFC 2308, section 2).
#[derive(Debug, Drop)]
pub struct NoRecords {
    /// The question that is answered so. Of a response it is its own first one, or that for the addresses of the
    /// root where it has none.
    pub query: Query,
    /// The SOA record of the zone that has no such records.
    pub soa: Option<Record>,
    /// The name servers that the answer refers to.
    pub ns: Option<Vec<ForwardNSData>>,
    /// For how many seconds the answer may be kept (RFC 2308, section 5).
    pub negative_ttl: Option<u32>,
    /// NOERROR or NXDOMAIN.
    pub response_code: ResponseCode,
    /// The records of the authority section.
    pub authorities: Option<Vec<Record>>,
}

/// A name server that an answer refers to, with its addresses.
#[derive(Debug, Drop)]
pub struct ForwardNSData {
    /// The NS record.
    pub ns: Record,
    /// The addresses of the server that it names.
    pub glue: Glue,
}

impl Model for NoRecords {
    ghost use Rattle.hickory_proto_core.specs.Errors.{NoRecordsValue, items_or_none};

    ghost Value = { NoRecordsValue };

    ghost view = { λ n. record {
      query = n.query;
      soa = n.soa;
      ns = items_or_none n.ns;
      negative_ttl = n.negative_ttl;
      response_code = n.response_code;
      authorities = items_or_none n.authorities;
    } };
}

impl Model for ForwardNSData {
    ghost use Rattle.hickory_proto_core.specs.Errors.{ForwardValue};

    ghost Value = { ForwardValue };

    ghost view = { λ f. record { ns = f.ns; glue = f.glue } };
}

impl NoRecords {
    /// The answer to this question with this code, and nothing else known.
    pub fn new(query: Query, response_code: ResponseCode) -> NoRecords
        ensures { result ≡ record {
          query = query;
          soa = None;
          ns = None;
          negative_ttl = None;
          response_code = response_code;
          authorities = None;
        } }
    {
        NoRecords {
            query,
            soa: None,
            ns: None,
            negative_ttl: None,
            response_code,
            authorities: None,
        }
    }

    /// A copy of every field.
    pub fn clone(&self) -> Result<NoRecords, NetError>
        ensures ok { IfOk result (λ n. n ≡ self.now) }
        ensures err { IsOkUnless result NetError.OutOfMemory }
    {
        Ok(Clone::clone(self)?)
    }
}

/// A copy equals its source.
impl Clone for NoRecords {
    ghost use Rattle.std.specs.Prelude.{◌≡◌};

    ghost is_clone = { λ none copy. copy ≡ none };

    fn clone(&self) -> Result<NoRecords, AllocError> {
        Ok(NoRecords {
            ns: self.ns.as_ref().cloned()?,
            authorities: self.authorities.as_ref().cloned()?,
            query: Clone::clone(&self.query)?,
            soa: self.soa.as_ref().cloned()?,
            negative_ttl: self.negative_ttl,
            response_code: self.response_code,
        })
    }
}

impl DnsError {
    /// A copy of every field. Only that of a negative answer may find no memory.
    pub fn clone(&self) -> Result<DnsError, NetError>
        ensures ok { IfOk result (λ e. e ≡ self.now) }
        ensures err { IsOkUnless result NetError.OutOfMemory }
        ensures memory { OnErr result (dns_error_holds_memory self.now ≡ true) }
    {
        Ok(Clone::clone(self)?)
    }
}

/// A copy equals its source. Only that of a negative answer may find no memory.
impl Clone for DnsError {
    ghost use Rattle.std.specs.Prelude.{◌≡◌, false};
    ghost use Rattle.hickory_proto_core.specs.NetErrors.{dns_error_holds_memory};

    ghost is_clone = { λ error copy. copy ≡ error };

    ghost is_infallible = { λ error. dns_error_holds_memory error ≡ false };

    fn clone(&self) -> Result<DnsError, AllocError> {
        match self {
            DnsError::ResponseCode(code) => Ok(DnsError::ResponseCode(*code)),
            DnsError::NoRecordsFound(none) => Ok(DnsError::NoRecordsFound(Clone::clone(none)?)),
        }
    }
}

impl NetError {
    /// Whether it is a negative answer (RFC 2308, section 2).
    pub fn is_no_records_found(&self) -> bool
        ensures { result ≡ is_no_records_found self.now }
    {
        matches!(self, NetError::Dns(DnsError::NoRecordsFound(_)))
    }

    /// Whether it is the answer that the name does not exist (RFC 2308, section 2.1).
    pub fn is_nx_domain(&self) -> bool
        ensures { result ≡ is_nx_domain self.now }
    {
        match self {
            NetError::Dns(DnsError::NoRecordsFound(none)) => {
                none.response_code == ResponseCode::NXDomain
            }
            _ => false,
        }
    }

    /// The SOA record of the zone that has no such records, where the error is a negative answer with one.
    pub fn into_soa(self) -> Option<Record>
        ensures { result ≡ soa_of_error self }
    {
        match self {
            NetError::Dns(DnsError::NoRecordsFound(none)) => none.soa,
            _ => None,
        }
    }

    /// The negative answer that the error is, or else the error itself.
    pub fn into_no_records(self) -> Result<NoRecords, NetError>
        ensures { result ≡ no_records_or self }
    {
        match self {
            NetError::Message(text) => Err(NetError::Message(text)),
            NetError::Timeout => Err(NetError::Timeout),
            NetError::Proto(error) => Err(NetError::Proto(error)),
            NetError::Dns(DnsError::ResponseCode(code)) => Err(NetError::Dns(DnsError::ResponseCode(
                code,
            ))),
            NetError::Dns(DnsError::NoRecordsFound(none)) => Ok(none),
            NetError::NoOutcome => Err(NetError::NoOutcome),
            NetError::Bounds(error) => Err(NetError::Bounds(error)),
            NetError::OutOfMemory => Err(NetError::OutOfMemory),
        }
    }

    /// A copy of every field. Only that of a negative answer may find no memory.
    pub fn clone(&self) -> Result<NetError, NetError>
        ensures ok { IfOk result (λ e. e ≡ self.now) }
        ensures err { IsOkUnless result NetError.OutOfMemory }
        ensures memory { OnErr result (error_holds_memory self.now ≡ true) }
    {
        Ok(Clone::clone(self)?)
    }
}

/// A copy equals its source. Only that of a negative answer may find no memory.
impl Clone for NetError {
    ghost use Rattle.std.specs.Prelude.{◌≡◌, false};
    ghost use Rattle.hickory_proto_core.specs.NetErrors.{error_holds_memory};

    ghost is_clone = { λ error copy. copy ≡ error };

    ghost is_infallible = { λ error. error_holds_memory error ≡ false };

    fn clone(&self) -> Result<NetError, AllocError> {
        match self {
            NetError::Message(text) => Ok(NetError::Message(text)),
            NetError::Timeout => Ok(NetError::Timeout),
            NetError::Proto(error) => Ok(NetError::Proto(*error)),
            NetError::Dns(error) => Ok(NetError::Dns(Clone::clone(error)?)),
            NetError::NoOutcome => Ok(NetError::NoOutcome),
            NetError::Bounds(error) => Ok(NetError::Bounds(*error)),
            NetError::OutOfMemory => Ok(NetError::OutOfMemory),
        }
    }
}

impl ForwardNSData {
    /// A copy of every field.
    pub fn clone(&self) -> Result<ForwardNSData, NetError>
        ensures ok { IfOk result (λ f. f ≡ self.now) }
        ensures err { IsOkUnless result NetError.OutOfMemory }
    {
        Ok(Clone::clone(self)?)
    }
}

/// A copy equals its source.
impl Clone for ForwardNSData {
    ghost use Rattle.std.specs.Prelude.{◌≡◌};

    ghost is_clone = { λ forward copy. copy ≡ forward };

    fn clone(&self) -> Result<ForwardNSData, AllocError> {
        Ok(ForwardNSData {
            glue: Clone::clone(&self.glue)?,
            ns: Clone::clone(&self.ns)?,
        })
    }
}

impl<T: Drop> From<AllocFailed<T>> for NetError {
    ghost use Rattle.std.specs.Prelude.{◌≡◌};
    ghost use Rattle.hickory_proto_core.specs.declared.net_error.NetError.TheVariants.{OutOfMemory};

    ghost from_gives = { λ _ e. e ≡ OutOfMemory };

    fn from(_: AllocFailed<T>) -> NetError {
        NetError::OutOfMemory
    }
}

impl From<AllocError> for NetError {
    ghost use Rattle.std.specs.Prelude.{◌≡◌};
    ghost use Rattle.hickory_proto_core.specs.declared.net_error.NetError.TheVariants.{OutOfMemory};

    ghost from_gives = { λ _ e. e ≡ OutOfMemory };

    fn from(_: AllocError) -> NetError {
        NetError::OutOfMemory
    }
}

/// The error of a name as one of asking; where memory ran out over the name, it is `NetError::OutOfMemory`.
impl From<NameError> for NetError {
    ghost use Rattle.std.specs.Prelude.{◌≡◌};
    ghost use Rattle.hickory_proto_core.specs.NetErrors.{net_error_of};

    ghost from_gives = { λ name_error e. e ≡ net_error_of name_error };

    fn from(error: NameError) -> NetError {
        match error {
            NameError::OutOfMemory => NetError::OutOfMemory,
            _ => NetError::Proto(error),
        }
    }
}

/// Reversed bounds as an error of asking.
impl From<BoundsError> for NetError {
    ghost use Rattle.std.specs.Prelude.{◌≡◌};
    ghost use Rattle.hickory_proto_core.specs.declared.net_error.NetError.TheVariants.{Bounds};

    ghost from_gives = { λ bounds_error e. e ≡ Bounds bounds_error };

    fn from(error: BoundsError) -> NetError {
        NetError::Bounds(error)
    }
}

impl From<NoRecords> for NetError {
    ghost use Rattle.std.specs.Prelude.{◌≡◌};
    ghost use Rattle.hickory_proto_core.specs.declared.net_error.NetError.TheVariants.{Dns};
    ghost use Rattle.hickory_proto_core.specs.declared.net_error.DnsError.TheVariants.{NoRecordsFound};

    ghost from_gives = { λ none e. e ≡ Dns (NoRecordsFound none) };

    fn from(none: NoRecords) -> NetError {
        NetError::Dns(DnsError::NoRecordsFound(none))
    }
}

impl From<&'static str> for NetError {
    ghost use Rattle.std.specs.Prelude.{◌≡◌};
    ghost use Rattle.hickory_proto_core.specs.declared.net_error.NetError.TheVariants.{Message};

    ghost from_gives = { λ text e. e ≡ Message text };

    fn from(text: &'static str) -> NetError {
        NetError::Message(text)
    }
}

//! The part of DNS that a resolver stands on: names, questions, records, messages, what a response comes to,
//! errors, and the handles by which an upstream is asked. There is no wire format.
#![tactic(auto)]

pub mod address_text;
pub mod bounds_error;
pub mod dns_handle;
pub mod dns_request;
pub mod dns_response;
pub mod glue;
pub mod message;
pub mod net_error;
pub mod query;
pub mod record_data;
pub mod recorded;
pub mod resource;
pub mod script_handle;
pub mod table_handle;
mod texts;

pub use address_text::ip_text;
pub use bounds_error::BoundsError;
pub use dns_handle::{DnsHandle, Outcome};
pub use dns_request::{DnsRequest, DnsRequestOptions};
pub use dns_response::DnsResponse;
pub use glue::Glue;
pub use hickory_proto_codes::{
    DNSClass, OpCode, Protocol, RecordType, ResponseCode, UnknownWord, read_decimal,
};
pub use hickory_proto_names::{IntoName, IpNet, Name, NameError, read_ip};
pub use message::{Message, Metadata};
pub use net_error::{DnsError, ForwardNSData, NetError, NoRecords};
pub use query::Query;
pub use record_data::RData;
pub use recorded::{Exchange, Recorded, clone_outcome};
pub use resource::Record;
pub use script_handle::ScriptHandle;
pub use table_handle::TableHandle;

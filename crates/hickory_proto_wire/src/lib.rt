//! Messages as bytes (RFC 1035, section 4.1).
#![tactic(auto)]

mod checks;
mod data_writer;
pub mod edns;
mod header;
mod label_count;
mod message_writer;
mod name_measure;
mod name_writer;
mod octet_writer;
mod old_data;
mod read_names;
mod reader;
mod record_writer;
mod section_writer;
pub mod to_wire_error;
pub mod wire_error;
pub mod wire_message;
mod wire_name;
mod wire_record;
mod wire_record_data;

pub use edns::Edns;
pub use to_wire_error::ToWireError;
pub use wire_error::{WireError, WireFault};
pub use wire_message::WireMessage;

//! The codes of DNS (RFC 1035, sections 3.2.2 to 3.2.5 and 4.1.1), and the words that stand for them in
//! texts.
#![tactic(auto)]

mod code_word;
pub mod decimal;
pub mod dns_class;
pub mod op_code;
pub mod protocol;
pub mod record_type;
pub mod response_code;
pub mod unknown_word;

pub use decimal::read_decimal;
pub use dns_class::DNSClass;
pub use op_code::OpCode;
pub use protocol::Protocol;
pub use record_type::RecordType;
pub use response_code::ResponseCode;
pub use unknown_word::UnknownWord;

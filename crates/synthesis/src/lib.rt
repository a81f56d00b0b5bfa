//! Records and denials that a resolver makes by itself of others: aliases of a DNAME record (RFC 6672), denials of NSEC and
//! NSEC3 records (RFC 8198), and IPv6 addresses with an IPv4 address in them (RFC 6052).
#![tactic(auto)]

pub mod base32hex;
pub mod dname;
pub mod dns64;
pub mod nsec;
pub mod nsec3;
pub mod type_bits;
pub mod wire_name;

pub use dname::is_substitution;
pub use dns64::{Prefix, is_embedded};
pub use nsec::{is_name_denied, is_type_denied};
pub use nsec3::{
    Chain, chain_octets, chain_of, covers, encloses, hashed_owner, is_bare, read_chain,
};
pub use type_bits::has_type;
pub use wire_name::{WireName, read_name};

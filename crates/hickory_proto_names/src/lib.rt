//! Domain names: their labels, their texts, their order, the names of addresses, and what may be given for a
//! name.
#![tactic(auto)]

pub mod arpa;
mod canonical;
pub mod into_name;
pub mod ip;
mod label_list;
pub mod name;
pub mod name_error;
pub mod name_text;

pub use into_name::IntoName;
pub use ip::{IpNet, read_ip};
pub use name::Name;
pub use name_error::NameError;

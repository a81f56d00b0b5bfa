//! `resolv.conf`, the file that says which name servers a machine asks, and how (resolv.conf(5) of glibc): read as a
//! configuration of a resolver, with a list of what was passed over. There is no input: a program hands in the octets
//! of the file.
#![tactic(auto)]

mod configuration;
mod keyword;
mod option_word;
mod passed_over;
mod reading;
mod script;
mod server;
mod server_text;
mod settings;
mod text;

pub use configuration::{ResolvConf, read_resolv_conf};
pub use passed_over::{PassedOver, Reason};
pub use script::script_lines;
pub use server::{Scope, Server, read_server};
pub use server_text::server_lines;

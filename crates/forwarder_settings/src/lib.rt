//! What a forwarder is opened with: what a file resolv.conf says, and over it lines: servers and how they are asked,
//! servers of domains, zones that are served here, names that are blocked, and who may ask; and files of blocked names.
//! There is no input: a program hands in the octets.
#![tactic(auto)]

mod blocked;
pub mod choices;
mod domains;
mod forwarder_line;
mod forwarder_option;
pub mod laws;
mod local_rules;
mod of_clients;
mod prefixes;
mod reading;
mod settings;

pub use blocked::read_blocked;
pub use domains::{DomainGroup, RuleLine};
pub use of_clients::differ_at_most_in_clients;
pub use reading::ForwarderSettings;
pub use session_settings::SettingsError;
pub use settings::read_forwarder_settings;

//! Why a forwarder is not opened.

use forwarder_settings::SettingsError;
use hickory_resolver_hosts::HostsError;
use thiserror::Error;

/// Why a forwarder is not opened, or not read anew.
#[derive(Clone, Copy, Debug, PartialEq, Eq, Error)]
pub enum ForwarderOpenError {
    /// A line of the settings has a fault, or sets nothing.
    #[error("{0}")]
    Settings(SettingsError),
    /// The hosts have a fault.
    #[error("hosts: {0}")]
    Hosts(HostsError),
    /// The server of this place in its group, counted from 0, is to be asked over UDP from a port that is given,
    /// which no line says.
    #[error("server {0} has a UDP source port")]
    FixedPort(usize),
    /// No memory was left.
    #[error("out of memory")]
    OutOfMemory,
}

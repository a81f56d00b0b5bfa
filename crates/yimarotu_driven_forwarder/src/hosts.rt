//! What is known here, without asking: hosts, and rules by domain.
ghost use Rattle.std.specs.Prelude.{◌≡◌, Err, IfErr, IfOk, IsOkUnless, Ok};
ghost use Rattle.yimarotu_driven_forwarder.specs.Opening.{AreHostsRead, IsLocalRead, local_of};

use crate::open_error::ForwarderOpenError;
use forwarder_settings::ForwarderSettings;
use hickory_resolver_hosts::{Hosts, HostsError};
use std::alloc::{AllocError, Global};
use std::hash::RandomState;
use yimarotu_forwarder::LocalData;

// What a file of hosts says, read at this moment (seconds), and what these settings and a file of blocked names say of
// domains.
pub(crate) fn read_local(
    alloc: Global,
    settings: &ForwarderSettings,
    hosts: &[u8],
    blocked: &[u8],
    now: u64,
    hasher: RandomState,
) -> Result<LocalData<RandomState>, ForwarderOpenError>
    ensures ok { IfOk result (λ local. IsLocalRead settings.now hosts.now blocked.now now
        (Ok (record { hosts = local.hosts; rules = local.rules }))) }
    ensures err { IfErr result (λ error. IsLocalRead settings.now hosts.now blocked.now now (Err error)) }
{
    match read_hosts(alloc, hosts, now, hasher) {
        Ok(table) => with_rules(alloc, settings, table, blocked, hasher),
        Err(error) => Err(error),
    }
}

// What a file of hosts says, read at this moment (seconds).
fn read_hosts(
    alloc: Global,
    hosts: &[u8],
    now: u64,
    hasher: RandomState,
) -> Result<Hosts<RandomState>, ForwarderOpenError>
    ensures { AreHostsRead hosts.now now result }
{
    let mut table = Hosts::with_hasher(alloc, hasher);
    match table.read_hosts_bytes(hosts, now) {
        Ok(()) => Ok(table),
        Err(HostsError::OutOfMemory) => Err(ForwarderOpenError::OutOfMemory),
        Err(error) => Err(ForwarderOpenError::Hosts(error)),
    }
}

// These hosts, with the rules.
fn with_rules(
    alloc: Global,
    settings: &ForwarderSettings,
    hosts: Hosts<RandomState>,
    blocked: &[u8],
    hasher: RandomState,
) -> Result<LocalData<RandomState>, ForwarderOpenError>
    ensures ok { IfOk result (λ local. record { hosts = local.hosts; rules = local.rules }
        ≡ local_of settings.now hosts blocked.now) }
    ensures err { IsOkUnless result ForwarderOpenError.OutOfMemory }
{
    match settings.local_data(alloc, hosts, blocked, hasher) {
        Ok(local) => Ok(local),
        Err(AllocError) => Err(ForwarderOpenError::OutOfMemory),
    }
}

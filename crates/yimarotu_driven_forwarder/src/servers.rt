//! The servers of a forwarder's groups.
ghost use Rattle.std.specs.Prelude.{◌≡◌};
ghost use Rattle.yimarotu_driven_forwarder.specs.Servers.{AsksGroup, AsksGroups, AsksServers};

use crate::open_error::ForwarderOpenError;
use forwarder_settings::{DomainGroup, ForwarderSettings};
use hickory_resolver_pool::{PoolServer, ServersError};
use yimarotu_forwarder::Forwarder;

// The general servers of these settings are those of group 0 from now on, and their groups are the groups 1, 2, ..
// Where memory runs out the first of them may be so already.
pub(crate) fn set_servers(
    forwarder: &mut Forwarder,
    settings: &ForwarderSettings,
) -> Result<(), ForwarderOpenError>
    ensures { AsksServers settings.now.servers settings.now.groups forwarder.old result forwarder.new }
{
    set_all(forwarder, &settings.servers, &settings.groups)
}

// The same of these servers and these groups.
pub(crate) fn set_all(
    forwarder: &mut Forwarder,
    servers: &[PoolServer],
    groups: &[DomainGroup],
) -> Result<(), ForwarderOpenError>
    ensures { AsksServers servers.now groups.now forwarder.old result forwarder.new }
{
    set_group(forwarder, 0, servers)?;
    set_groups(forwarder, groups)
}

fn set_groups(forwarder: &mut Forwarder, groups: &[DomainGroup]) -> Result<(), ForwarderOpenError>
    ensures { AsksGroups 1 groups.now forwarder.old result forwarder.new }
{
    let mut number = 0;
    for group in groups {
        number += 1;
        set_group(forwarder, number, &group.servers)?;
    }
    Ok(())
}

fn set_group(
    forwarder: &mut Forwarder,
    number: u64,
    servers: &[PoolServer],
) -> Result<(), ForwarderOpenError>
    ensures { AsksGroup number servers.now forwarder.old result forwarder.new }
{
    match forwarder.set_servers(number, servers) {
        Ok(()) => Ok(()),
        Err(ServersError::FixedPort(place)) => Err(ForwarderOpenError::FixedPort(place)),
        Err(ServersError::OutOfMemory) => Err(ForwarderOpenError::OutOfMemory),
    }
}

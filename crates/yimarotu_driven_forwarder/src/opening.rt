//! How a forwarder is opened.
ghost use Rattle.std.specs.Prelude.{◌≡◌};
ghost use Rattle.yimarotu_driven_forwarder.specs.Opening.{HasServers, IsForwarderOpened, IsOpenedOver, IsServed, forwarder_or};

use crate::hosts::read_local;
use crate::open_error::ForwarderOpenError;
use crate::seeds::Seeds;
use crate::servers::set_all;
use crate::texts::Texts;
use forwarder_settings::{DomainGroup, ForwarderSettings, read_forwarder_settings};
use hickory_resolver_pool::{NameServerPool, PoolLimits, PoolServer};
use std::alloc::{AllocError, Global};
use std::hash::RandomState;
use yimarotu_forwarder::{Forwarder, LocalData};

// A forwarder of what these texts say, at this moment (milliseconds).
pub(crate) fn open_forwarder(
    alloc: Global,
    texts: &Texts<'_>,
    seeds: &Seeds,
    now: u64,
) -> Result<Forwarder, ForwarderOpenError>
    ensures { IsForwarderOpened texts.now seeds.now.pool now result }
{
    match read_forwarder_settings(alloc, texts.conf, texts.hostname, texts.settings) {
        Ok(settings) => open_over(alloc, settings, texts, seeds, now),
        Err(error) => Err(ForwarderOpenError::Settings(error)),
    }
}

// The same of these settings.
fn open_over(
    alloc: Global,
    settings: ForwarderSettings,
    texts: &Texts<'_>,
    seeds: &Seeds,
    now: u64,
) -> Result<Forwarder, ForwarderOpenError>
    ensures { IsOpenedOver settings texts.now seeds.now.pool now result }
{
    let local = read_local(
        alloc,
        &settings,
        texts.hosts,
        texts.blocked,
        now / 1000,
        seeds.hasher,
    );
    match local {
        Ok(local) => serve(alloc, settings, local, seeds),
        Err(error) => Err(error),
    }
}

// The forwarder of these settings over this local data, with its servers.
fn serve(
    alloc: Global,
    settings: ForwarderSettings,
    local: LocalData<RandomState>,
    seeds: &Seeds,
) -> Result<Forwarder, ForwarderOpenError>
    ensures { IsServed settings (record { hosts = local.hosts; rules = local.rules }) seeds.now.pool result }
{
    let ForwarderSettings {
        options,
        servers,
        groups,
        forwarder,
        cache,
        failures,
        ..
    } = settings;
    let limits = PoolLimits::default();
    let pool = NameServerPool::new(alloc, options, limits, seeds.pool, seeds.hasher);
    match Forwarder::new(alloc, forwarder, local, pool, cache, failures, seeds.hasher) {
        Ok(forwarder) => with_servers(forwarder, &servers, &groups),
        Err(AllocError) => Err(ForwarderOpenError::OutOfMemory),
    }
}

fn with_servers(
    forwarder: Forwarder,
    servers: &[PoolServer],
    groups: &[DomainGroup],
) -> Result<Forwarder, ForwarderOpenError>
    ensures { HasServers servers.now groups.now forwarder result }
{
    let mut forwarder = forwarder;
    let ended = set_all(&mut forwarder, servers, groups);
    forwarder_or(forwarder, ended)
}

fn forwarder_or(
    forwarder: Forwarder,
    ended: Result<(), ForwarderOpenError>,
) -> Result<Forwarder, ForwarderOpenError>
    ensures { result ≡ forwarder_or forwarder ended }
{
    match ended {
        Ok(()) => Ok(forwarder),
        Err(error) => {
            drop(forwarder);
            Err(error)
        }
    }
}

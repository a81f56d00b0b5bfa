//! The resolver of a conversation is made.
ghost use Rattle.std.specs.Prelude.{◌≡◌, None, Ok, string_bytes};
ghost use Rattle.hickory_resolver_model.specs.Bounds.{bounds_fault};
ghost use Rattle.hickory_resolver_model.specs.Options.{bounds_of};
ghost use Rattle.conversation.specs.Answers.{IsMade, IsMadeWith};
ghost use Rattle.conversation.specs.FileSettings.{file_settings, lines_text};
ghost use Rattle.conversation.specs.Telling.{IsMadeSo, IsOpenedSo, resolver_over};

use crate::fault::ConversationFault;
use crate::file_settings::FileSettings;
use crate::files::Files;
use hickory_proto_core::ScriptHandle;
use hickory_resolver::{Hosts, Resolver, ResolverConfig};
use replay_script::{Configuration, ScriptFault};
use std::alloc::{AllocError, Global};

/// The resolver, and the lines of the journal that set what a file resolv.conf sets.
#[derive(Drop)]
pub struct Opened {
    pub resolver: Resolver<ScriptHandle>,
    pub told: String,
}

/// The resolver of what was set, and behind it of the file resolv.conf, over the hosts, read at this moment (seconds).
pub fn open(
    alloc: Global,
    configuration: &Configuration,
    files: &Files,
    now: u64,
) -> Result<Opened, ConversationFault>
    ensures { IsOpenedSo (IsMadeWith (file_settings files.now.resolv) configuration.now files.now.hosts now)
        (lines_text (file_settings files.now.resolv).lines) result }
{
    match FileSettings::read(alloc, files.resolv()) {
        Ok(said) => open_by(alloc, configuration, &said, files.hosts(), now),
        Err(AllocError) => Err(ConversationFault::Script(ScriptFault::OutOfMemory)),
    }
}

fn open_by(
    alloc: Global,
    configuration: &Configuration,
    said: &FileSettings,
    hosts: &[u8],
    now: u64,
) -> Result<Opened, ConversationFault>
    ensures { IsOpenedSo (IsMadeWith said.now configuration.now hosts.now now) (lines_text said.now.lines) result }
{
    match said.text(alloc) {
        Ok(told) => open_telling(alloc, configuration, said, hosts, now, told),
        Err(AllocError) => Err(ConversationFault::Script(ScriptFault::OutOfMemory)),
    }
}

fn open_telling(
    alloc: Global,
    configuration: &Configuration,
    said: &FileSettings,
    hosts: &[u8],
    now: u64,
    told: String,
) -> Result<Opened, ConversationFault>
    ensures { IsOpenedSo (IsMadeWith said.now configuration.now hosts.now now) (string_bytes told) result }
{
    match make(alloc, configuration, said, hosts, now) {
        Ok(resolver) => Ok(Opened { resolver, told }),
        Err(fault) => Err(fault),
    }
}

fn make(
    alloc: Global,
    configuration: &Configuration,
    said: &FileSettings,
    hosts: &[u8],
    now: u64,
) -> Result<Resolver<ScriptHandle>, ConversationFault>
    ensures { IsMadeSo (IsMadeWith said.now configuration.now hosts.now now) result }
{
    match said.whole(alloc, configuration) {
        Ok(whole) => make_of(alloc, whole, hosts, now),
        Err(fault) => Err(fault),
    }
}

fn make_of(
    alloc: Global,
    configuration: Configuration,
    hosts: &[u8],
    now: u64,
) -> Result<Resolver<ScriptHandle>, ConversationFault>
    ensures { IsMadeSo (IsMade configuration hosts.now now) result }
{
    match configuration.check_bounds(alloc) {
        Ok(()) => make_over(alloc, configuration, hosts, now),
        Err(fault) => Err(ConversationFault::Script(fault)),
    }
}

// The bounds are in order.
fn make_over(
    alloc: Global,
    configuration: Configuration,
    hosts: &[u8],
    now: u64,
) -> Result<Resolver<ScriptHandle>, ConversationFault>
    requires { bounds_fault (bounds_of configuration.options) ≡ None }
    ensures { IsMadeSo (IsMade configuration hosts.now now) result }
{
    let mut table = Hosts::default(alloc);
    match table.read_hosts_bytes(hosts, now) {
        Ok(()) => resolver_of(alloc, configuration, table),
        Err(error) => Err(ConversationFault::from(error)),
    }
}

// The resolver of this configuration, whose bounds are in order, over these hosts. Its own handle is never asked, and
// it takes no memory.
fn resolver_of(
    alloc: Global,
    configuration: Configuration,
    hosts: Hosts,
) -> Result<Resolver<ScriptHandle>, ConversationFault>
    requires { bounds_fault (bounds_of configuration.options) ≡ None }
    ensures { result ≡ Ok (resolver_over configuration hosts) }
{
    let Configuration {
        options,
        domain,
        search,
        ..
    } = configuration;
    let config = ResolverConfig::from_parts(domain, search, Vec::new(alloc));
    let handle = ScriptHandle::new(Vec::new(alloc));
    let builder = Resolver::builder_with_config(config, handle).with_options(options);
    let Ok(mut resolver) = builder.build() else {
        return Err(ConversationFault::Script(ScriptFault::OutOfMemory));
    };
    resolver.set_hosts(hosts);
    Ok(resolver)
}

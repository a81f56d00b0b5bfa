//! Forwarders are opened, and read anew.
ghost use Rattle.std.specs.Prelude.{◌≡◌, IfOk, None};
ghost use Rattle.yimarotu_driven_forwarder.specs.Texts.{texts_of};
ghost use Rattle.yimarotu_forwarder_c.specs.Calls.{OnOpen};
ghost use Rattle.yimarotu_forwarder_c.specs.Openings.{IsKept, Opens, OpensFrom, OpensSeeded, Reloads, open_end, open_error, reloaded_end, settings_error};
ghost use Rattle.yimarotu_forwarder_c.specs.declared.status.Status.TheVariants as status;

use crate::forwarders::{YimarotuForwarder, put, take};
use crate::status::Status;
use forwarder_settings::SettingsError;
use std::alloc::{AllocError, Global};
use yimarotu_driven_forwarder::{DrivenForwarder, ForwarderOpenError, Texts};

/// How the opening of a forwarder ended.
#[repr(C)]
#[derive(Drop)]
pub struct YimarotuOpened {
    /// The number of a status.
    pub status: u8,
    /// The line of a fault of the settings, from 1; else 0.
    pub line: usize,
}

/// Opens a forwarder: as a file resolv.conf says on a host of this name, and over it these settings, over what a file
/// of hosts says, read at this moment (milliseconds), and over a file of blocked names. The seed is 32 octets that
/// nobody knows.
#[unsafe(no_mangle)]
pub extern "C" fn yimarotu_forwarder_open(
    alloc: Global,
    forwarder: &mut YimarotuForwarder,
    conf: &[u8],
    hostname: &[u8],
    settings: &[u8],
    hosts: &[u8],
    blocked: &[u8],
    seed: &[u8],
    moment: u64,
) -> YimarotuOpened
    ensures { Opens (OpensFrom (texts_of conf.now hostname.now settings.now hosts.now blocked.now) seed.now moment)
        forwarder.old.inside.value result forwarder.new.inside.value }
{
    if forwarder.is_open() {
        return ended(Status::IsOpen, 0);
    }
    let texts = Texts {
        conf,
        hostname,
        settings,
        hosts,
        blocked,
    };
    open_from(alloc, forwarder, &texts, seed, moment)
}

fn open_from(
    alloc: Global,
    forwarder: &mut YimarotuForwarder,
    texts: &Texts<'_>,
    seed: &[u8],
    moment: u64,
) -> YimarotuOpened
    requires { forwarder.old.inside.value ≡ None }
    ensures { OpensFrom texts.now seed.now moment result forwarder.new.inside.value }
{
    match <[u8; 32]>::try_from(seed) {
        Ok(seed) => open_seeded(alloc, forwarder, texts, seed, moment),
        Err(_) => ended(Status::Seed, 0),
    }
}

fn open_seeded(
    alloc: Global,
    forwarder: &mut YimarotuForwarder,
    texts: &Texts<'_>,
    seed: [u8; 32],
    moment: u64,
) -> YimarotuOpened
    requires { forwarder.old.inside.value ≡ None }
    ensures { OpensSeeded texts.now seed moment result forwarder.new.inside.value }
{
    match DrivenForwarder::open(alloc, texts, seed, moment) {
        Ok(inside) => keep(alloc, forwarder, inside),
        Err(error) => refused(error),
    }
}

// Keeps a forwarder in the place of none.
fn keep(alloc: Global, forwarder: &mut YimarotuForwarder, inside: DrivenForwarder) -> YimarotuOpened
    requires { forwarder.old.inside.value ≡ None }
    ensures { IsKept inside result forwarder.new.inside.value }
{
    match boxed(alloc, inside) {
        Ok(inside) => {
            put(forwarder, inside);
            ended(Status::Ok, 0)
        }
        Err(AllocError) => ended(Status::NoMemory, 0),
    }
}

// For any type: of one that is known the drop of what is refused would be taken apart.
fn boxed<T: Drop>(alloc: Global, value: T) -> Result<Box<T>, AllocError>
    ensures { IfOk result (λ inside. inside.value ≡ value) }
{
    Ok(Box::new(alloc, value)?)
}

/// Reads the files and the settings anew, at a moment (milliseconds).
#[unsafe(no_mangle)]
pub extern "C" fn yimarotu_forwarder_reload(
    alloc: Global,
    forwarder: &mut YimarotuForwarder,
    conf: &[u8],
    hostname: &[u8],
    settings: &[u8],
    hosts: &[u8],
    blocked: &[u8],
    moment: u64,
) -> YimarotuOpened
    ensures { OnOpen (Reloads (texts_of conf.now hostname.now settings.now hosts.now blocked.now) moment)
        (open_end status.Closed 0) forwarder.old.inside.value result forwarder.new.inside.value }
{
    let Some(mut inside) = take(alloc, forwarder) else {
        return ended(Status::Closed, 0);
    };
    let texts = Texts {
        conf,
        hostname,
        settings,
        hosts,
        blocked,
    };
    let ended = reload(alloc, &mut inside, &texts, moment);
    put(forwarder, inside);
    ended
}

fn reload(
    alloc: Global,
    forwarder: &mut DrivenForwarder,
    texts: &Texts<'_>,
    moment: u64,
) -> YimarotuOpened
    ensures { Reloads texts.now moment forwarder.old result forwarder.new }
{
    reloaded_end(forwarder.reload(alloc, texts, moment))
}

fn reloaded_end(reloaded: Result<(), ForwarderOpenError>) -> YimarotuOpened
    ensures { result ≡ reloaded_end reloaded }
{
    match reloaded {
        Ok(()) => ended(Status::Ok, 0),
        Err(error) => refused(error),
    }
}

fn refused(error: ForwarderOpenError) -> YimarotuOpened
    ensures { result ≡ open_error error }
{
    match error {
        ForwarderOpenError::Settings(error) => refused_settings(error),
        ForwarderOpenError::Hosts(_) => ended(Status::Hosts, 0),
        ForwarderOpenError::FixedPort(_) => ended(Status::Script, 0),
        ForwarderOpenError::OutOfMemory => ended(Status::NoMemory, 0),
    }
}

fn refused_settings(error: SettingsError) -> YimarotuOpened
    ensures { result ≡ settings_error error }
{
    match error {
        SettingsError::Line(error) => ended(Status::Script, error.line),
        SettingsError::NotSetting(line) => ended(Status::Script, line),
        SettingsError::OutOfMemory => ended(Status::NoMemory, 0),
    }
}

fn ended(status: Status, line: usize) -> YimarotuOpened
    ensures { result ≡ open_end status line }
{
    YimarotuOpened {
        status: status.number(),
        line,
    }
}

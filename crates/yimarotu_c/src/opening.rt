//! Sessions are opened.
ghost use Rattle.std.specs.Prelude.{◌≡◌, IfOk, None, length};
ghost use Rattle.resolv_conf.specs.ResolvConf.{resolv_conf};
ghost use Rattle.yimarotu_c.specs.Openings.{IsSessionKept, Opens, OpensDriven, OpensFed, OpensSeeded, network_error, open_end, open_error, settings_error};
ghost use Rattle.yimarotu_session.specs.FileSettings.{IsOpenedWith};
ghost use Rattle.yimarotu_session.specs.NetworkSessions.{seconds_of};
ghost use Rattle.yimarotu_session.specs.Opening.{IsOpened};

use crate::sessions::{YimarotuOpened, YimarotuSession, put};
use crate::status::Status;
use session_settings::SettingsError;
use std::alloc::{AllocError, Global};
use yimarotu_embedded::{DrivenSession, Held, NetworkOpenError};
use yimarotu_session::{OpenError, Session};

/// Opens a session that asks by itself: as a file resolv.conf says on a host of this name, and in place of it these
/// settings, over what a file of hosts says, read at this moment (milliseconds). The seed is 32 octets that nobody knows.
#[unsafe(no_mangle)]
pub extern "C" fn yimarotu_open(
    alloc: Global,
    session: &mut YimarotuSession,
    conf: &[u8],
    hostname: &[u8],
    settings: &[u8],
    hosts: &[u8],
    seed: &[u8],
    moment: u64,
) -> YimarotuOpened
    ensures { Opens (OpensDriven conf.now hostname.now settings.now hosts.now seed.now moment)
        session.old.inside.value result session.new.inside.value }
{
    if session.is_open() {
        return ended(Status::IsOpen, 0);
    }
    match <[u8; 32]>::try_from(seed) {
        Ok(seed) => open_seeded(
            alloc, session, conf, hostname, settings, hosts, seed, moment,
        ),
        Err(_) => ended(Status::Seed, 0),
    }
}

fn open_seeded(
    alloc: Global,
    session: &mut YimarotuSession,
    conf: &[u8],
    hostname: &[u8],
    settings: &[u8],
    hosts: &[u8],
    seed: [u8; 32],
    moment: u64,
) -> YimarotuOpened
    requires { session.old.inside.value ≡ None }
    ensures { OpensSeeded conf.now hostname.now settings.now hosts.now seed moment result session.new.inside.value }
{
    match DrivenSession::open(alloc, conf, hostname, settings, hosts, seed, moment) {
        Ok(inside) => keep(alloc, session, Held::Driven(inside)),
        Err(error) => refused_network(error),
    }
}

/// Opens a session that is fed by hand with these settings, over what a file of hosts says, read at this moment
/// (milliseconds).
#[unsafe(no_mangle)]
pub extern "C" fn yimarotu_open_fed(
    alloc: Global,
    session: &mut YimarotuSession,
    settings: &[u8],
    hosts: &[u8],
    moment: u64,
) -> YimarotuOpened
    ensures { Opens (OpensFed (IsOpened settings.now hosts.now (seconds_of moment))) session.old.inside.value result
        session.new.inside.value }
{
    if session.is_open() {
        return ended(Status::IsOpen, 0);
    }
    match Session::open(alloc, settings, hosts, moment / 1000) {
        Ok(inside) => keep(alloc, session, Held::Fed(inside)),
        Err(error) => refused(error),
    }
}

/// Opens a session that is fed by hand with these settings, and behind them what a file resolv.conf says on a host of
/// this name, over what a file of hosts says, read at this moment (milliseconds).
#[unsafe(no_mangle)]
pub extern "C" fn yimarotu_open_fed_with(
    alloc: Global,
    session: &mut YimarotuSession,
    conf: &[u8],
    hostname: &[u8],
    settings: &[u8],
    hosts: &[u8],
    moment: u64,
) -> YimarotuOpened
    ensures { Opens (OpensFed (IsOpenedWith (resolv_conf conf.now hostname.now) settings.now hosts.now
        (seconds_of moment))) session.old.inside.value result session.new.inside.value }
{
    if session.is_open() {
        return ended(Status::IsOpen, 0);
    }
    match Session::open_with(alloc, conf, hostname, settings, hosts, moment / 1000) {
        Ok(inside) => keep(alloc, session, Held::Fed(inside)),
        Err(error) => refused(error),
    }
}

// Keeps a session in the place of none.
fn keep(alloc: Global, session: &mut YimarotuSession, held: Held) -> YimarotuOpened
    requires { session.old.inside.value ≡ None }
    ensures { IsSessionKept held result session.new.inside.value }
{
    match boxed(alloc, held) {
        Ok(inside) => {
            put(session, inside);
            ended(Status::Ok, 0)
        }
        Err(AllocError) => ended(Status::NoMemory, 0),
    }
}

// For any type: of one that is known the drop of what is refused would be taken apart.
fn boxed<T: Drop>(alloc: Global, value: T) -> Result<Box<T>, AllocError>
    ensures { IfOk result (λ inside. inside.value ≡ value) }
{
    Ok(Box::new(alloc, value)?)
}

fn refused(error: OpenError) -> YimarotuOpened
    ensures { result ≡ open_error error }
{
    match error {
        OpenError::Script(error) => ended(Status::Script, error.line),
        OpenError::NotSettings => ended(Status::Script, 0),
        OpenError::Hosts(_) => ended(Status::Hosts, 0),
        OpenError::OutOfMemory => ended(Status::NoMemory, 0),
    }
}

fn refused_network(error: NetworkOpenError) -> YimarotuOpened
    ensures { result ≡ network_error error }
{
    match error {
        NetworkOpenError::Settings(error) => refused_settings(error),
        NetworkOpenError::Hosts(_) => ended(Status::Hosts, 0),
        NetworkOpenError::FixedPort(_) => ended(Status::Script, 0),
        NetworkOpenError::OutOfMemory => ended(Status::NoMemory, 0),
    }
}

fn refused_settings(error: SettingsError) -> YimarotuOpened
    ensures { result ≡ settings_error error }
{
    match error {
        SettingsError::Line(error) => ended(Status::Script, error.line),
        SettingsError::NotSetting(line) => ended(Status::Script, line),
        SettingsError::OutOfMemory => ended(Status::NoMemory, 0),
    }
}

fn ended(status: Status, line: usize) -> YimarotuOpened
    ensures { result ≡ open_end status line }
{
    YimarotuOpened {
        status: status.number(),
        line,
    }
}

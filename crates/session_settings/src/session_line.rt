//! What a line of the settings says.
ghost use Rattle.std.specs.Prelude.{◌≡◌, ◌⊎◌, Err};
ghost use Rattle.replay_script.specs.Faults.{out_of_memory};
ghost use Rattle.replay_script.specs.Words.{texts};
ghost use Rattle.session_settings.specs.SessionLine.{AreSaid, IsDirected, IsLine, IsScriptLine, directive_named, directive_of, line_said, server_said, setting_said, values_of};

use crate::server_line::read_server_line;
use crate::session_option::{SessionOption, read_session_option};
use hickory_resolver_pool::PoolServer;
use replay_script::{Line, LineFault, Setting, is_skipped, read_text, split};
use std::alloc::Global;

/// What a line sets.
#[derive(Drop)]
pub enum SessionSetting {
    /// What a line of a script sets.
    Script(Setting),
    /// An option that no script has.
    Option(SessionOption),
    /// One more server.
    Server(PoolServer),
}

/// What a line says.
#[derive(Drop)]
pub enum SessionLine {
    /// Nothing.
    Blank,
    /// A setting of a session.
    Sets(SessionSetting),
    /// Something else that a line of a script can say.
    NoSetting,
}

// What a line is about.
#[derive(Clone, Copy)]
enum Directive {
    Server,
    Option,
    Script,
}

/// Reads a line. A fault is the first one from the left, with the field that it is about.
pub fn read_session_line(alloc: Global, line: &[u8]) -> Result<SessionLine, LineFault<'_>>
    ensures { IsLine line.now result ⊎ (result ≡ Err out_of_memory) }
{
    if is_skipped(line) {
        return Ok(SessionLine::Blank);
    }
    let text = read_text(line)?;
    let fields = split(alloc, text)?;
    read_session_fields(alloc, &fields)
}

/// Reads the fields of a line, of which the first says what it is about.
pub fn read_session_fields<'a>(
    alloc: Global,
    fields: &[&'a str],
) -> Result<SessionLine, LineFault<'a>>
    ensures { AreSaid (texts fields.now) result ⊎ (result ≡ Err out_of_memory) }
{
    match directive_of(fields) {
        Directive::Server => read_server(alloc, values_of(fields)),
        Directive::Option => read_option(alloc, fields),
        Directive::Script => read_script_line(alloc, fields),
    }
}

// What a line is about, by its first field.
fn directive_of(fields: &[&str]) -> Directive
    ensures { result ≡ directive_of (texts fields.now) }
{
    match fields {
        [word, ..] => directive_named(word),
        [] => Directive::Script,
    }
}

fn directive_named(word: &str) -> Directive
    ensures { result ≡ directive_named word.now }
{
    match word {
        "server" => Directive::Server,
        "option" => Directive::Option,
        _ => Directive::Script,
    }
}

// The fields behind the first.
fn values_of<'a, 'b>(fields: &'b [&'a str]) -> &'b [&'a str]
    ensures { texts result.now ≡ values_of (texts fields.now) }
{
    match fields {
        [_, values @ ..] => values,
        [] => &[],
    }
}

fn read_server<'a>(alloc: Global, values: &[&'a str]) -> Result<SessionLine, LineFault<'a>>
    ensures { (result ≡ server_said (texts values.now)) ⊎ (result ≡ Err out_of_memory) }
{
    match read_server_line(alloc, values) {
        Ok(server) => Ok(SessionLine::Sets(SessionSetting::Server(server))),
        Err(fault) => Err(fault),
    }
}

// An option that no script has, or else a line of a script.
fn read_option<'a>(alloc: Global, fields: &[&'a str]) -> Result<SessionLine, LineFault<'a>>
    ensures { IsDirected Directive.Option (texts fields.now) result ⊎ (result ≡ Err out_of_memory) }
{
    match read_session_option(values_of(fields)) {
        Some(Ok(option)) => Ok(SessionLine::Sets(SessionSetting::Option(option))),
        Some(Err(fault)) => Err(fault),
        None => read_script_line(alloc, fields),
    }
}

// A line of a script. No reply is open that a record could belong to.
fn read_script_line<'a>(alloc: Global, fields: &[&'a str]) -> Result<SessionLine, LineFault<'a>>
    ensures { IsScriptLine (texts fields.now) result ⊎ (result ≡ Err out_of_memory) }
{
    match replay_script::read_fields(alloc, false, fields) {
        Ok(line) => Ok(line_said(line)),
        Err(fault) => Err(fault),
    }
}

fn line_said(line: Line) -> SessionLine
    ensures { result ≡ line_said line }
{
    match line {
        Line::Blank => SessionLine::Blank,
        Line::Configuration(setting) => setting_said(setting),
        Line::Reply(_) | Line::Fail(_) | Line::Record(_, _) | Line::Request(_) => {
            SessionLine::NoSetting
        }
    }
}

fn setting_said(setting: Setting) -> SessionLine
    ensures { result ≡ setting_said setting }
{
    match setting {
        Setting::Upstream { .. } => SessionLine::NoSetting,
        setting => SessionLine::Sets(SessionSetting::Script(setting)),
    }
}

//! What a line of the settings says.
ghost use Rattle.std.specs.Prelude.{◌≡◌, ◌⊎◌, Err};
ghost use Rattle.replay_script.specs.Faults.{out_of_memory};
ghost use Rattle.replay_script.specs.Words.{texts};
ghost use Rattle.session_settings.specs.SessionLine.{values_of};
ghost use Rattle.forwarder_settings.specs.ForwarderLine.{AreSaid, IsDirected, IsLine, IsSessionLine, allow_answers_for_said, allow_answers_said, allow_said, block_as, block_of, block_said, blocked_field, denied_named, deny_answers_said, directive_named, directive_of, exempt_named, forward_of, forward_said, forward_to, is_asking, option_said, rule_for, serve_said, session_line_said, session_setting_said};

use crate::forwarder_option::{ForwarderOption, read_forwarder_option};
use crate::prefixes::read_prefix;
use hickory_proto_core::{IpNet, Name};
use hickory_resolver_pool::PoolServer;
use local_answers::{Blocked, DomainRule};
use replay_script::words::read_name;
use replay_script::{LineFault, ScriptFault, is_skipped, read_text, split};
use session_settings::{
    SessionLine, SessionOption, SessionSetting, read_server_line, read_session_fields,
};
use std::alloc::Global;

/// What a line sets.
#[derive(Drop)]
pub enum ForwarderSetting {
    /// How servers are asked.
    Asking(SessionOption),
    /// One more general server.
    Server(PoolServer),
    /// One more server of a domain and the names below it.
    Forward(Name, PoolServer),
    /// What is done with a domain and the names below it.
    Rule(Name, DomainRule),
    /// One more network whose clients may ask.
    Allow(IpNet),
    /// One more network whose addresses no reply has.
    DenyAnswers(IpNet),
    /// The same of all networks that are private, loopback, link-local or unspecified.
    DenyPrivate,
    /// One more network whose addresses replies may have all the same.
    AllowAnswers(IpNet),
    /// One more domain for whose names, and for those below them, replies may have all addresses.
    AllowAnswersFor(Name),
    /// An option that only a forwarder has.
    Option(ForwarderOption),
}

/// What a line says.
#[derive(Drop)]
pub enum ForwarderLine {
    /// Nothing.
    Blank,
    /// A setting of a forwarder.
    Sets(ForwarderSetting),
    /// Something else that a line of a session or of a script can say.
    NoSetting,
}

// What a line is about.
#[derive(Clone, Copy)]
enum Directive {
    Forward,
    Serve,
    Block,
    Allow,
    DenyAnswers,
    AllowAnswers,
    AllowAnswersFor,
    Option,
    Session,
}

/// Reads a line. A fault is the first one from the left, with the field that it is about.
pub fn read_forwarder_line(alloc: Global, line: &[u8]) -> Result<ForwarderLine, LineFault<'_>>
    ensures { IsLine line.now result ⊎ (result ≡ Err out_of_memory) }
{
    if is_skipped(line) {
        return Ok(ForwarderLine::Blank);
    }
    let text = read_text(line)?;
    let fields = split(alloc, text)?;
    read_fields(alloc, &fields)
}

fn read_fields<'a>(alloc: Global, fields: &[&'a str]) -> Result<ForwarderLine, LineFault<'a>>
    ensures { AreSaid (texts fields.now) result ⊎ (result ≡ Err out_of_memory) }
{
    let values = values_of(fields);
    match directive_of(fields) {
        Directive::Forward => read_forward(alloc, values),
        Directive::Serve => read_serve(alloc, values),
        Directive::Block => read_block(alloc, values),
        Directive::Allow => read_allow(values),
        Directive::DenyAnswers => read_deny_answers(values),
        Directive::AllowAnswers => read_allow_answers(values),
        Directive::AllowAnswersFor => read_allow_answers_for(alloc, values),
        Directive::Option => read_option(alloc, fields),
        Directive::Session => read_session_line(alloc, fields),
    }
}

// What a line is about, by its first field.
fn directive_of(fields: &[&str]) -> Directive
    ensures { result ≡ directive_of (texts fields.now) }
{
    match fields {
        [word, ..] => directive_named(word),
        [] => Directive::Session,
    }
}

fn directive_named(word: &str) -> Directive
    ensures { result ≡ directive_named word.now }
{
    match word {
        "forward" => Directive::Forward,
        "serve" => Directive::Serve,
        "block" => Directive::Block,
        "allow" => Directive::Allow,
        "deny_answers" => Directive::DenyAnswers,
        "allow_answers" => Directive::AllowAnswers,
        "allow_answers_for" => Directive::AllowAnswersFor,
        "option" => Directive::Option,
        _ => Directive::Session,
    }
}

// The fields behind the first.
fn values_of<'a, 'b>(fields: &'b [&'a str]) -> &'b [&'a str]
    ensures { texts result.now ≡ values_of (texts fields.now) }
{
    match fields {
        [_, values @ ..] => values,
        [] => &[],
    }
}

// DOMAIN, of which this is said.
fn read_rule(alloc: Global, rule: DomainRule, domain: &str) -> Result<ForwarderLine, LineFault<'_>>
    ensures { (result ≡ rule_for rule domain.now) ⊎ (result ≡ Err out_of_memory) }
{
    match read_name(alloc, domain) {
        Ok(name) => Ok(ForwarderLine::Sets(ForwarderSetting::Rule(name, rule))),
        Err(fault) => Err(fault),
    }
}

// DOMAIN [ADDRESS [PORT] [PROTOCOL]]
fn read_forward<'a>(alloc: Global, values: &[&'a str]) -> Result<ForwarderLine, LineFault<'a>>
    ensures { (result ≡ forward_said (texts values.now)) ⊎ (result ≡ Err out_of_memory) }
{
    match values {
        [] => Err(LineFault::wrong_line(ScriptFault::FieldCount)),
        [domain] => read_rule(alloc, DomainRule::Ask(0), domain),
        [domain, server @ ..] => read_forward_to(alloc, domain, server),
    }
}

fn read_forward_to<'a>(
    alloc: Global,
    domain: &'a str,
    server: &[&'a str],
) -> Result<ForwarderLine, LineFault<'a>>
    ensures { (result ≡ forward_to domain.now (texts server.now)) ⊎ (result ≡ Err out_of_memory) }
{
    match read_name(alloc, domain) {
        Ok(name) => read_forward_of(alloc, name, server),
        Err(fault) => Err(fault),
    }
}

// The server of a domain.
fn read_forward_of<'a>(
    alloc: Global,
    name: Name,
    server: &[&'a str],
) -> Result<ForwarderLine, LineFault<'a>>
    ensures { (result ≡ forward_of name (texts server.now)) ⊎ (result ≡ Err out_of_memory) }
{
    match read_server_line(alloc, server) {
        Ok(server) => Ok(ForwarderLine::Sets(ForwarderSetting::Forward(name, server))),
        Err(fault) => Err(fault),
    }
}

// DOMAIN
fn read_serve<'a>(alloc: Global, values: &[&'a str]) -> Result<ForwarderLine, LineFault<'a>>
    ensures { (result ≡ serve_said (texts values.now)) ⊎ (result ≡ Err out_of_memory) }
{
    match values {
        [domain] => read_rule(alloc, DomainRule::Serve, domain),
        _ => Err(LineFault::wrong_line(ScriptFault::FieldCount)),
    }
}

// DOMAIN [ANSWER]
fn read_block<'a>(alloc: Global, values: &[&'a str]) -> Result<ForwarderLine, LineFault<'a>>
    ensures { (result ≡ block_said (texts values.now)) ⊎ (result ≡ Err out_of_memory) }
{
    match values {
        [domain] => read_rule(alloc, DomainRule::Block(Blocked::NoName), domain),
        [domain, word] => read_block_as(alloc, domain, word),
        _ => Err(LineFault::wrong_line(ScriptFault::FieldCount)),
    }
}

fn read_block_as<'a>(
    alloc: Global,
    domain: &'a str,
    word: &'a str,
) -> Result<ForwarderLine, LineFault<'a>>
    ensures { (result ≡ block_as domain.now word.now) ⊎ (result ≡ Err out_of_memory) }
{
    match read_name(alloc, domain) {
        Ok(name) => read_block_of(name, word),
        Err(fault) => Err(fault),
    }
}

// How this domain is blocked.
fn read_block_of(name: Name, word: &str) -> Result<ForwarderLine, LineFault<'_>>
    ensures { result ≡ block_of name word.now }
{
    match read_blocked_as(word) {
        Ok(blocked) => Ok(ForwarderLine::Sets(ForwarderSetting::Rule(
            name,
            DomainRule::Block(blocked),
        ))),
        Err(fault) => Err(fault),
    }
}

// How a blocked name is answered.
fn read_blocked_as(word: &str) -> Result<Blocked, LineFault<'_>>
    ensures { result ≡ blocked_field word.now }
{
    match word {
        "noname" => Ok(Blocked::NoName),
        "nodata" => Ok(Blocked::NoData),
        "null" => Ok(Blocked::NullAddress),
        _ => Err(LineFault::wrong_field(ScriptFault::UnknownWord, word)),
    }
}

// PREFIX
fn read_allow<'a>(values: &[&'a str]) -> Result<ForwarderLine, LineFault<'a>>
    ensures { result ≡ allow_said (texts values.now) }
{
    let [word] = values else {
        return Err(LineFault::wrong_line(ScriptFault::FieldCount));
    };
    Ok(ForwarderLine::Sets(ForwarderSetting::Allow(read_prefix(word)?)))
}

// PREFIX
fn read_allow_answers<'a>(values: &[&'a str]) -> Result<ForwarderLine, LineFault<'a>>
    ensures { result ≡ allow_answers_said (texts values.now) }
{
    let [word] = values else {
        return Err(LineFault::wrong_line(ScriptFault::FieldCount));
    };
    Ok(ForwarderLine::Sets(ForwarderSetting::AllowAnswers(read_prefix(word)?)))
}

// DOMAIN
fn read_allow_answers_for<'a>(
    alloc: Global,
    values: &[&'a str],
) -> Result<ForwarderLine, LineFault<'a>>
    ensures { (result ≡ allow_answers_for_said (texts values.now)) ⊎ (result ≡ Err out_of_memory) }
{
    match values {
        [domain] => read_exempt(alloc, domain),
        _ => Err(LineFault::wrong_line(ScriptFault::FieldCount)),
    }
}

fn read_exempt(alloc: Global, domain: &str) -> Result<ForwarderLine, LineFault<'_>>
    ensures { (result ≡ exempt_named domain.now) ⊎ (result ≡ Err out_of_memory) }
{
    match read_name(alloc, domain) {
        Ok(name) => Ok(ForwarderLine::Sets(ForwarderSetting::AllowAnswersFor(name))),
        Err(fault) => Err(fault),
    }
}

// PREFIX, or `private`
fn read_deny_answers<'a>(values: &[&'a str]) -> Result<ForwarderLine, LineFault<'a>>
    ensures { result ≡ deny_answers_said (texts values.now) }
{
    let [word] = values else {
        return Err(LineFault::wrong_line(ScriptFault::FieldCount));
    };
    read_denied(word)
}

fn read_denied(word: &str) -> Result<ForwarderLine, LineFault<'_>>
    ensures { result ≡ denied_named word.now }
{
    match word {
        "private" => Ok(ForwarderLine::Sets(ForwarderSetting::DenyPrivate)),
        _ => Ok(ForwarderLine::Sets(ForwarderSetting::DenyAnswers(read_prefix(word)?))),
    }
}

// An option that only a forwarder has, or else a line of a session.
fn read_option<'a>(alloc: Global, fields: &[&'a str]) -> Result<ForwarderLine, LineFault<'a>>
    ensures { IsDirected Directive.Option (texts fields.now) result ⊎ (result ≡ Err out_of_memory) }
{
    match read_forwarder_option(values_of(fields)) {
        Some(Ok(option)) => Ok(ForwarderLine::Sets(ForwarderSetting::Option(option))),
        Some(Err(fault)) => Err(fault),
        None => read_session_line(alloc, fields),
    }
}

// A line of a session.
fn read_session_line<'a>(alloc: Global, fields: &[&'a str]) -> Result<ForwarderLine, LineFault<'a>>
    ensures { IsSessionLine (texts fields.now) result ⊎ (result ≡ Err out_of_memory) }
{
    match read_session_fields(alloc, fields) {
        Ok(line) => Ok(session_line_said(line)),
        Err(fault) => Err(fault),
    }
}

fn session_line_said(line: SessionLine) -> ForwarderLine
    ensures { result ≡ session_line_said line }
{
    match line {
        SessionLine::Blank => ForwarderLine::Blank,
        SessionLine::NoSetting => ForwarderLine::NoSetting,
        SessionLine::Sets(setting) => session_setting_said(setting),
    }
}

fn session_setting_said(setting: SessionSetting) -> ForwarderLine
    ensures { result ≡ session_setting_said setting }
{
    match setting {
        SessionSetting::Script(_) => ForwarderLine::NoSetting,
        SessionSetting::Option(option) => option_said(option),
        SessionSetting::Server(server) => ForwarderLine::Sets(ForwarderSetting::Server(server)),
    }
}

fn option_said(option: SessionOption) -> ForwarderLine
    ensures { result ≡ option_said option }
{
    if is_asking(option) {
        ForwarderLine::Sets(ForwarderSetting::Asking(option))
    } else {
        ForwarderLine::NoSetting
    }
}

// Whether an option says how servers are asked for a forwarder.
fn is_asking(option: SessionOption) -> bool
    ensures { result ≡ is_asking option }
{
    !matches!(
        option,
        SessionOption::RecursionDesired(_) | SessionOption::CacheOctets(_)
    )
}

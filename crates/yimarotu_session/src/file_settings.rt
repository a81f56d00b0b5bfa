//! Settings of a session, and behind them what a file resolv.conf says.
ghost use Rattle.std.specs.Prelude.{◌≡◌, ◌++◌, IfOk, OnOk, map, string_bytes};
ghost use Rattle.std.specs.List.{flat_map};
ghost use Rattle.resolv_conf.specs.ResolvConf.{resolv_conf};
ghost use Rattle.yimarotu_session.specs.FileSettings.{IsMadeBehind, IsMadeSo, line_behind, settings_behind, with_edns};

use crate::opening::{OpenError, read_over, read_settings};
use hickory_proto_core::ScriptHandle;
use hickory_resolver::Resolver;
use replay_script::Script;
use resolv_conf::{ResolvConf, read_resolv_conf, script_lines};
use std::alloc::{AllocError, Global};

// The resolver of these settings, and behind them of a file resolv.conf on a host of this name, over what a file of hosts
// says, read at this moment (seconds).
pub(crate) fn read_resolver_with(
    alloc: Global,
    conf: &[u8],
    hostname: &[u8],
    settings: &[u8],
    hosts: &[u8],
    now: u64,
) -> Result<Resolver<ScriptHandle>, OpenError>
    ensures { IsMadeBehind (resolv_conf conf.now hostname.now) settings.now hosts.now now result }
{
    match read_resolv_conf(alloc, conf, hostname) {
        Ok(conf) => read_resolver_behind(alloc, &conf, settings, hosts, now),
        Err(AllocError) => Err(OpenError::OutOfMemory),
    }
}

fn read_resolver_behind(
    alloc: Global,
    conf: &ResolvConf,
    settings: &[u8],
    hosts: &[u8],
    now: u64,
) -> Result<Resolver<ScriptHandle>, OpenError>
    ensures { IsMadeBehind conf.now settings.now hosts.now now result }
{
    match settings_behind(alloc, conf, settings) {
        Ok(lines) => read_resolver_so(alloc, has_edns(conf), &lines, hosts, now),
        Err(AllocError) => Err(OpenError::OutOfMemory),
    }
}

fn has_edns(conf: &ResolvConf) -> bool
    ensures { result ≡ conf.now.options.edns0 }
{
    conf.options.edns0
}

// The resolver of these settings, whose requests have an EDNS record or not.
fn read_resolver_so(
    alloc: Global,
    edns: bool,
    settings: &[u8],
    hosts: &[u8],
    now: u64,
) -> Result<Resolver<ScriptHandle>, OpenError>
    ensures { IsMadeSo edns settings.now hosts.now now result }
{
    match read_settings(alloc, settings) {
        Ok(script) => read_over(alloc, with_edns(script, edns), hosts, now),
        Err(error) => Err(error),
    }
}

fn with_edns(script: Script, edns: bool) -> Script
    ensures { result ≡ with_edns edns script }
{
    let mut script = script;
    script.options.edns0 = edns;
    script
}

// The settings, and behind them the lines that set what the file says.
fn settings_behind(alloc: Global, conf: &ResolvConf, settings: &[u8]) -> Result<Vec<u8>, AllocError>
    ensures { IfOk result (λ text. text.items ≡ settings_behind conf.now settings.now) }
{
    let lines = script_lines(alloc, conf)?;
    let mut text = Vec::from_slice(alloc, settings)?;
    push_lines(&mut text, &lines)?;
    Ok(text)
}

fn push_lines(text: &mut Vec<u8>, lines: &[String]) -> Result<(), AllocError>
    ensures { OnOk result (text.new.items
        ≡ text.old.items ++ flat_map line_behind (map string_bytes lines.now)) }
{
    for line in lines {
        push_line(text, line)?;
    }
    Ok(())
}

fn push_line(text: &mut Vec<u8>, line: &String) -> Result<(), AllocError>
    ensures { OnOk result (text.new.items ≡ text.old.items ++ line_behind (string_bytes line.now)) }
{
    text.push(b'\n')?;
    text.extend_from_slice(line.as_bytes())?;
    Ok(())
}

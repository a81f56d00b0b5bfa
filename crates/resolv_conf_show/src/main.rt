//! Prints what a file resolv.conf says: `resolv_conf_show FILE [HOSTNAME]`. Each server, each domain of the search list,
//! the options, and what was passed over, a line for each.
#![tactic(auto)]

use hickory_resolver_config::{
    LookupIpStrategy, ResolverConfig, ResolverOpts, ServerOrderingStrategy,
};
use resolv_conf::{PassedOver, Reason, ResolvConf, Scope, read_resolv_conf};
use std::process::ExitCode;
use std::{env, fs, io};

// The status of wrong arguments, and of a file that cannot be read or an output that cannot be written.
const USAGE: u8 = 2;

const FAILED: u8 = 1;

fn main(rt: HostRuntime) -> ExitCode {
    match run(&rt) {
        Ok(true) => ExitCode::SUCCESS,
        Ok(false) => {
            let _ = eprintln!(rt; "usage: resolv_conf_show FILE [HOSTNAME]");
            ExitCode::from(USAGE)
        }
        Err(error) => {
            let _ = eprintln!(rt; "{error}");
            ExitCode::from(FAILED)
        }
    }
}

// Whether the arguments are such as are wanted.
fn run(rt: &HostRuntime) -> anyhow::Result<bool> {
    let mut words = env::args(rt)?.skip(1);
    let (Some(path), hostname, None) = (words.next(), words.next(), words.next()) else {
        return Ok(false);
    };
    let octets = fs::read(rt, path.as_str())?;
    let hostname = match &hostname {
        Some(name) => name.as_bytes(),
        None => &[],
    };
    let conf = read_resolv_conf(rt.alloc(), &octets, hostname)?;
    show(rt, &conf)?;
    Ok(true)
}

fn show(rt: &impl Print, conf: &ResolvConf) -> io::Result<()> {
    show_servers(rt, &conf.config, &conf.scopes)?;
    for domain in conf.config.search() {
        println!(rt; "search {domain}")?;
    }
    show_numbers(rt, &conf.options)?;
    show_flags(rt, &conf.config, &conf.options)?;
    show_flag(rt, "trust-ad", conf.trust_ad)?;
    for passed in &conf.passed_over {
        show_passed(rt, *passed)?;
    }
    Ok(())
}

fn show_servers(
    rt: &impl Print,
    config: &ResolverConfig,
    scopes: &[Option<Scope>],
) -> io::Result<()> {
    for (server, scope) in config.name_servers().iter().zip(scopes) {
        let address = server.ip;
        print!(rt; "server {address}")?;
        if let Some(scope) = scope {
            show_scope(rt, scope.as_bytes())?;
        }
        println!(rt; "")?;
    }
    Ok(())
}

fn show_scope(rt: &impl Print, octets: &[u8]) -> io::Result<()> {
    print!(rt; " %")?;
    for octet in octets {
        let letter = char::from(*octet);
        print!(rt; "{letter}")?;
    }
    Ok(())
}

fn show_numbers(rt: &impl Print, options: &ResolverOpts) -> io::Result<()> {
    let ndots = options.ndots;
    let timeout = options.timeout;
    let rounds = options.attempts.saturating_add(1);
    println!(rt; "ndots {ndots}")?;
    println!(rt; "timeout {timeout}")?;
    println!(rt; "attempts {rounds}")
}

fn show_flags(rt: &impl Print, config: &ResolverConfig, options: &ResolverOpts) -> io::Result<()> {
    let rotate = options.server_ordering_strategy == ServerOrderingStrategy::RoundRobin;
    show_flag(rt, "rotate", rotate)?;
    show_flag(rt, "use-vc", is_over_tcp(config))?;
    show_flag(rt, "edns0", options.edns0)?;
    show_flag(
        rt,
        "no-aaaa",
        options.ip_strategy == LookupIpStrategy::Ipv4Only,
    )
}

// Whether servers are asked over one protocol alone.
fn is_over_tcp(config: &ResolverConfig) -> bool {
    config
        .name_servers()
        .iter()
        .any(|server| server.connections.len() == 1)
}

fn show_flag(rt: &impl Print, name: &str, is_set: bool) -> io::Result<()> {
    let word = if is_set { "yes" } else { "no" };
    println!(rt; "{name} {word}")
}

fn show_passed(rt: &impl Print, passed: PassedOver) -> io::Result<()> {
    let line = passed.line;
    let why = reason(passed.reason);
    println!(rt; "passed over line {line}: {why}")
}

fn reason(reason: Reason) -> &'static str {
    match reason {
        Reason::UnknownKeyword => "unknown keyword",
        Reason::NoValue => "no value",
        Reason::NotAnAddress => "not an address",
        Reason::NotAName => "not a name",
        Reason::Replaced => "replaced by a later line",
        Reason::UnknownOption => "unknown option",
        Reason::NotANumber => "not a number",
    }
}

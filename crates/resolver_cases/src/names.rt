//! Names and addresses: calls that the lines of a file ask for.
use crate::shown::{say, say_value, show_named};
use hickory_proto_core::{IpNet, Name, NameError, ip_text, read_ip};
use std::alloc::Global;
use std::net::IpAddr;

/// Each line with the answer behind it. A line is the name of a call, and what the call is given, each behind a tab.
pub fn show_lines(rt: &impl Print, alloc: Global, cases: &str) {
    for line in cases.lines() {
        let _ = rt.print(line);
        let _ = rt.print("\t");
        let (call, given) = line.split_once('\t').unwrap_or((line, ""));
        show_answer(rt, alloc, call, given);
    }
}

fn show_answer(rt: &impl Print, alloc: Global, call: &str, given: &str) {
    let (first, second) = given.split_once('\t').unwrap_or((given, ""));
    match call {
        "address" => show_address(rt, alloc, given),
        "append" => show_named(rt, appended(alloc, first, second)),
        "base" => show_named(rt, without_first(alloc, given)),
        "equal" => show_named(rt, is_equal(alloc, first, second)),
        "localhost" => show_named(rt, is_localhost(alloc, given)),
        "network" => show_network(rt, network_of(alloc, given)),
        "order" => show_ordered(rt, ordered(alloc, given)),
        "pointer" => show_pointer(rt, alloc, given),
        "trim" => show_named(rt, trimmed(alloc, first, second)),
        _ => show_read(rt, Name::from_ascii(alloc, given)),
    }
}

// A name's text, the count of its labels, and whether it is fully qualified; or the fault of the text.
fn show_read(rt: &impl Print, name: Result<Name, NameError>) {
    match &name {
        Ok(name) => {
            let _ = println!(rt; "{name}\t{} {}", name.num_labels(), name.is_fqdn());
        }
        Err(fault) => say_value(rt, fault),
    }
    drop(name);
}

fn is_equal(alloc: Global, first: &str, second: &str) -> Result<bool, NameError> {
    let first = Name::from_ascii(alloc, first)?;
    let second = Name::from_ascii(alloc, second)?;
    Ok(first == second)
}

// Whether `localhost.` is a zone of a name.
fn is_localhost(alloc: Global, name: &str) -> Result<bool, NameError> {
    let name = Name::from_ascii(alloc, name)?;
    Ok(name.is_localhost())
}

// A name with a domain behind it.
fn appended(alloc: Global, name: &str, domain: &str) -> Result<Name, NameError> {
    let name = Name::from_ascii(alloc, name)?;
    let domain = Name::from_ascii(alloc, domain)?;
    name.append_domain(&domain)
}

// The last labels of a name, as many as the number says.
fn trimmed(alloc: Global, number: &str, name: &str) -> Result<Name, NameError> {
    let name = Name::from_ascii(alloc, name)?;
    name.trim_to(number.parse().unwrap_or(0))
}

fn without_first(alloc: Global, name: &str) -> Result<Name, NameError> {
    let name = Name::from_ascii(alloc, name)?;
    name.base_name()
}

// The names between the tabs, in their order.
fn ordered(alloc: Global, given: &str) -> Result<Vec<Name>, NameError> {
    let mut names = Vec::new(alloc);
    match push_names(alloc, &mut names, given) {
        Ok(()) => Ok(names),
        Err(fault) => {
            drop(names);
            Err(fault)
        }
    }
}

fn push_names(alloc: Global, names: &mut Vec<Name>, given: &str) -> Result<(), NameError> {
    for given in given.split('\t') {
        names.push(Name::from_ascii(alloc, given)?)?;
    }
    Ok(names.sort()?)
}

fn show_ordered(rt: &impl Print, names: Result<Vec<Name>, NameError>) {
    match &names {
        Ok(names) => {
            for name in names {
                let _ = print!(rt; "<{name}>");
            }
            say(rt, &"");
        }
        Err(fault) => say_value(rt, fault),
    }
    drop(names);
}

// The text of the address that a text gives, or that there is none.
fn show_address(rt: &impl Print, alloc: Global, given: &str) {
    match read_ip(given) {
        Some(address) => show_named(rt, ip_text(alloc, address)),
        None => say(rt, &"none"),
    }
}

// The network that a name stands for.
fn network_of(alloc: Global, name: &str) -> Result<IpNet, NameError> {
    let name = Name::from_ascii(alloc, name)?;
    name.parse_arpa_name()
}

fn show_network(rt: &impl Print, net: Result<IpNet, NameError>) {
    match net {
        Ok(net) => {
            let _ = println!(rt; "{} {}", net.addr(), net.prefix_len());
        }
        Err(fault) => say_value(rt, &fault),
    }
}

// The name of an address, and whether it stands for that address alone.
fn show_pointer(rt: &impl Print, alloc: Global, given: &str) {
    match read_ip(given) {
        Some(address) => show_name_of(rt, Name::from_ip(alloc, address), address),
        None => say(rt, &"none"),
    }
}

fn show_name_of(rt: &impl Print, name: Result<Name, NameError>, address: IpAddr) {
    match &name {
        Ok(name) => {
            let _ = print!(rt; "{name} ");
            let own = name.parse_arpa_name();
            let is_own = matches!(own, Ok(net) if net.addr() == address);
            let _ = println!(rt; "{} {is_own}", own.map_or(0, |net| net.prefix_len()));
        }
        Err(fault) => say_value(rt, fault),
    }
    drop(name);
}

//! Names, and what makes them.
use crate::memory::marks::done;
use crate::sample::{IP, name, text};
use crate::shown::show_text;
use hickory_proto_core::{IntoName, Name, NameError, NetError, ip_text};
use hickory_proto_names::ip::printed_text;
use std::alloc::Global;
use std::net::{Ipv4Addr, Ipv6Addr};

const WWW: &str = "www.example.com.";

/// Makes the call of a case, and says whether there is such a case.
pub fn make(rt: &impl Print, alloc: Global, case: &str) -> Result<bool, NetError> {
    match case {
        "Name::from_ascii"
        | "Name::from_str"
        | "Name::from_ip"
        | "IntoName of a text"
        | "IntoName of an address"
        | "IntoName of an IPv4 address"
        | "IntoName of an address of either family" => {
            show_text(rt, call!(rt, case, made(alloc, case)));
            Ok(true)
        }
        "IntoName of a text that is owned" => done(of_text(rt, alloc, case)),
        "ip_text" => {
            show_text(rt, call!(rt, case, ip_text(alloc, IP)));
            Ok(true)
        }
        "printed_text" => {
            show_text(rt, call!(rt, case, printed_text(alloc, IP)));
            Ok(true)
        }
        "Name::append_domain" | "Name::base_name" | "Name::trim_to" | "Name::to_ascii" => {
            done(of_name(rt, alloc, case))
        }
        _ => Ok(false),
    }
}

fn made(alloc: Global, case: &str) -> Result<Name, NameError> {
    match case {
        "Name::from_ascii" => Name::from_ascii(alloc, WWW),
        "Name::from_str" => Name::from_str(alloc, WWW),
        "Name::from_ip" => Name::from_ip(alloc, IP),
        "IntoName of a text" => WWW.into_name(alloc),
        "IntoName of an address" => Ipv6Addr::LOCALHOST.into_name(alloc),
        "IntoName of an IPv4 address" => Ipv4Addr::LOCALHOST.into_name(alloc),
        _ => IP.into_name(alloc),
    }
}

fn of_text(rt: &impl Print, alloc: Global, case: &str) -> Result<(), NetError> {
    let text = text(alloc, WWW)?;
    show_text(rt, call!(rt, case, text.into_name(alloc)));
    Ok(())
}

fn of_name(rt: &impl Print, alloc: Global, case: &str) -> Result<(), NetError> {
    let first = name(alloc, "a")?;
    let www = Name::from_ascii(alloc, WWW)?;
    match case {
        "Name::append_domain" => show_text(rt, call!(rt, case, first.append_domain(&www))),
        "Name::base_name" => show_text(rt, call!(rt, case, www.base_name())),
        "Name::trim_to" => show_text(rt, call!(rt, case, www.trim_to(2))),
        _ => show_text(rt, call!(rt, case, www.to_ascii(alloc))),
    }
    drop(www);
    Ok(())
}

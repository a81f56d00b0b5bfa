//! Tables of hosts.
use crate::memory::marks::done;
use crate::parts::both;
use crate::sample::{name, one, query};
use crate::shown::{Shown, say, say_part, show};
use hickory_proto_core::{Name, NetError, Query, RecordType};
use hickory_resolver::{Hosts, Lookup, Watched};
use std::alloc::Global;

// A mark at the front, a line without names, one without an address, a name that is none, and a line that is no text.
const FILE: &[u8] =
    b"\xef\xbb\xbf127.0.0.1 localhost\r\n10.0.0.1\n10.0.0.300 bad\n10.0.0.2 good1 a..b good2\n\xff\n";

const POINTER: &str = "1.0.0.127.in-addr.arpa";

/// Makes the call of a case, and says whether there is such a case.
pub fn make(rt: &impl Print, alloc: Global, case: &str) -> Result<bool, NetError> {
    match case {
        "Hosts::insert of a name"
        | "Hosts::insert of another address"
        | "Hosts::read_hosts_bytes"
        | "Hosts::read_hosts_watched"
        | "Hosts::read_hosts_conf" => done(change(rt, alloc, case)),
        "Hosts::lookup_static_host of an address" => {
            done(look_up(rt, alloc, case, POINTER, RecordType::PTR))
        }
        "Hosts::lookup_static_host of a name" => {
            done(look_up(rt, alloc, case, "localhost", RecordType::A))
        }
        "no memory: lookup_static_host of another type" => {
            done(look_up(rt, alloc, case, "localhost", RecordType::MX))
        }
        _ => Ok(false),
    }
}

fn change(rt: &impl Print, alloc: Global, case: &str) -> Result<(), NetError> {
    let mut hosts = Hosts::default(alloc);
    let changed = show_changed(rt, alloc, case, &mut hosts);
    drop(hosts);
    changed
}

// What a call answered, and how many addresses each name has then.
fn show_changed(
    rt: &impl Print,
    alloc: Global,
    case: &str,
    hosts: &mut Hosts,
) -> Result<(), NetError> {
    match case {
        "Hosts::insert of a name" => insert(rt, alloc, case, hosts, "good2")?,
        "Hosts::insert of another address" => insert(rt, alloc, case, hosts, "good1")?,
        "Hosts::read_hosts_bytes" => show(rt, call!(rt, case, hosts.read_hosts_bytes(FILE, 0))),
        "Hosts::read_hosts_conf" => show(rt, call!(rt, case, hosts.read_hosts_conf(FILE, 0))),
        _ => {
            let mut file = Watched::new(FILE);
            show(rt, call!(rt, case, hosts.read_hosts_watched(&mut file, 0)));
        }
    }
    for label in ["localhost", "good1", "good2", "bad"] {
        let query = query(alloc, label)?;
        let found = hosts.lookup_static_host(&query, 0)?;
        if let Some(found) = &found {
            say_part(rt, label, &found.answers().len());
        }
        drop(found);
    }
    Ok(())
}

// Into a table of one name.
fn insert(
    rt: &impl Print,
    alloc: Global,
    case: &str,
    hosts: &mut Hosts,
    label: &str,
) -> Result<(), NetError> {
    let (kept, lookup) = both(name(alloc, "good1"), one(alloc, "good1"))?;
    drop(hosts.insert(kept, RecordType::A, lookup, 0));
    let (added, lookup) = both(name(alloc, label), one(alloc, label))?;
    show(
        rt,
        call!(rt, case, hosts.insert(added, RecordType::A, lookup, 0)),
    );
    Ok(())
}

// What the table of the file has for a question, whose name gets its mark there.
fn look_up(
    rt: &impl Print,
    alloc: Global,
    case: &str,
    name: &str,
    record_type: RecordType,
) -> Result<(), NetError> {
    let query = Query::query(Name::from_ascii(alloc, name)?, record_type);
    let mut hosts = Hosts::default(alloc);
    drop(hosts.read_hosts_bytes(FILE, 0));
    show(rt, call!(rt, case, hosts.lookup_static_host(&query, 0)));
    drop(hosts);
    Ok(())
}

impl Shown for Option<Lookup> {
    fn show(&self, rt: &impl Print) {
        match self {
            Some(lookup) => lookup.show(rt),
            None => say(rt, &"nothing"),
        }
    }
}

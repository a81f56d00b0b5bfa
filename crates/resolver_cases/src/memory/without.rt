//! Calls that take no memory.
use crate::memory::clients::with_search;
use crate::memory::handles::request;
use crate::memory::marks::done;
use crate::parts::both;
use crate::sample::{Pair, Said, glue, one, query, script};
use crate::shown::{say, show_text};
use hickory_proto_core::{
    DnsHandle, DnsRequestOptions, Name, NetError, Outcome, RecordType, ScriptHandle, clone_outcome,
    read_ip,
};
use hickory_resolver::{CachingClient, LookupIp, Resolver, ResolverOpts, TtlBounds, TtlConfig};
use std::alloc::Global;

const A: RecordType = RecordType::A;

// What the scripts say.
const PAIRS: [Pair; 2] = [("a", A, Said::Address), ("b", A, Said::Address)];

/// Makes the calls of a case, and says whether there is such a case.
pub fn make(rt: &impl Print, alloc: Global, case: &str) -> Result<bool, NetError> {
    match case {
        "no memory: Name::from_labels" => done(from_labels(rt, alloc, case)),
        "no memory: names" => done(names(rt, alloc, case)),
        "no memory: addresses" => done(addresses(rt, alloc, case)),
        "no memory: copies of a failure" => {
            failures(rt, case);
            Ok(true)
        }
        "no memory: Glue::clone and decrement_ttl" => done(share(rt, alloc, case)),
        "no memory: ScriptHandle::send" => done(send(rt, alloc, case)),
        "no memory: look-ups" => done(lookups(rt, alloc, case)),
        "no memory: bounds" => {
            bounds(rt, alloc, case);
            Ok(true)
        }
        "no memory: clears of a client" => done(clears(rt, alloc, case)),
        "no memory: ResolverBuilder::build" => done(build(rt, alloc, case)),
        _ => Ok(false),
    }
}

fn from_labels(rt: &impl Print, alloc: Global, case: &str) -> Result<(), NetError> {
    let mut labels = Vec::new(alloc);
    for label in ["www", "com"] {
        labels.push(Vec::from_slice(alloc, label.as_bytes())?)?;
    }
    show_text(rt, call!(rt, case, Name::from_labels(labels)));
    Ok(())
}

// The count of labels, whether the mark is set, before and after it is, whether it is a zone of another, whether it
// equals that and comes before it, and whether it is a loopback name.
fn names(rt: &impl Print, alloc: Global, case: &str) -> Result<(), NetError> {
    let other = Name::from_ascii(alloc, "www.example.com.")?;
    let mut zone = Name::from_ascii(alloc, "Example.com")?;
    let (labels, before, after, is_zone) = call!(
        rt,
        case,
        {
            let before = zone.is_fqdn();
            zone.set_fqdn(true);
            let labels = zone.labels().len();
            (labels, before, zone.is_fqdn(), zone.zone_of(&other))
        }
    );
    let _ = println!(rt; "{labels} {before} {after} {is_zone}");
    let (is_equal, is_less, is_localhost) = (zone == other, zone < other, zone.is_localhost());
    let _ = println!(rt; "  {is_equal} {is_less} {is_localhost}");
    Ok(())
}

// Whether a text is an address, whether a name is that of one, and how many labels it has.
fn addresses(rt: &impl Print, alloc: Global, case: &str) -> Result<(), NetError> {
    let name = Name::from_ascii(alloc, "1.2.0.192.in-addr.arpa.")?;
    let (is_address, is_arpa, labels) = call!(
        rt,
        case,
        {
            let is_address = read_ip("2001:db8::1").is_some();
            (
                is_address,
                name.parse_arpa_name().is_ok(),
                name.num_labels()
            )
        }
    );
    let _ = println!(rt; "{is_address} {is_arpa} {labels}");
    Ok(())
}

// Whether the copy of an error that is no negative answer is that error.
fn failures(rt: &impl Print, case: &str) {
    let failed: Outcome = Err(NetError::Timeout);
    let copy = call!(rt, case, clone_outcome(&failed));
    let is_timeout = matches!(&copy, Ok(Err(NetError::Timeout)));
    drop(copy);
    drop(failed);
    say(rt, &is_timeout);
}

// How many addresses an older copy has, or that it was not made, and how many there are.
fn share(rt: &impl Print, alloc: Global, case: &str) -> Result<(), NetError> {
    let mut glue = glue(alloc)?;
    let copy = call!(
        rt,
        case,
        {
            glue.decrement_ttl(20);
            glue.clone()
        }
    );
    match &copy {
        Ok(copy) => {
            let _ = println!(rt; "{} of {}", copy.len(), glue.len());
        }
        Err(error) => say(rt, error),
    }
    drop(copy);
    drop(glue);
    Ok(())
}

// Whether an outcome is given, and whether one is behind the last.
fn send(rt: &impl Print, alloc: Global, case: &str) -> Result<(), NetError> {
    let script = script(alloc, &[("a", A, Said::Address)]);
    let (request, mut handle) = both(request(alloc, "a"), script)?;
    let (first, second) = call!(rt, case, (handle.send(&request), handle.send(&request)));
    let _ = println!(rt; "{} {}", first.is_ok(), second.is_ok());
    drop(first);
    drop(second);
    drop(handle);
    Ok(())
}

// How many addresses there are, by reference and by value, and the deadline.
fn lookups(rt: &impl Print, alloc: Global, case: &str) -> Result<(), NetError> {
    let found = LookupIp::from(one(alloc, "a")?);
    let (listed, until, given) = call!(rt, case, read_addresses(found));
    let _ = println!(rt; "{listed} {until} {given}");
    Ok(())
}

fn read_addresses(found: LookupIp) -> (usize, u64, usize) {
    let (mut listed, mut given) = (0_usize, 0_usize);
    for _ in found.iter() {
        listed = listed.saturating_add(1);
    }
    let until = found.as_lookup().valid_until();
    for _ in found.into_iter() {
        given = given.saturating_add(1);
    }
    (listed, until, given)
}

// Whether bounds are taken, by themselves and out of options, and the greatest TTL by default.
fn bounds(rt: &impl Print, alloc: Global, case: &str) {
    let options = ResolverOpts::default(alloc);
    let (is_taken, is_refused, greatest) = call!(
        rt,
        case,
        {
            let is_taken = TtlConfig::from_opts(alloc, &options).is_ok();
            let is_refused = TtlBounds::new(Some(9), None, Some(8), None).is_err();
            let (_, greatest) = TtlConfig::default(alloc).positive_response_ttl_bounds(A);
            (is_taken, is_refused, greatest)
        }
    );
    let _ = println!(rt; "{is_taken} {is_refused} {greatest}");
}

fn clears(rt: &impl Print, alloc: Global, case: &str) -> Result<(), NetError> {
    let handle = script(alloc, &PAIRS)?;
    let mut client = CachingClient::new(alloc, 8, handle, false);
    let shown = show_clears(rt, alloc, case, &mut client);
    drop(client);
    shown
}

// How many entries there are, after one is cleared and after all are.
fn show_clears(
    rt: &impl Print,
    alloc: Global,
    case: &str,
    client: &mut CachingClient<ScriptHandle>,
) -> Result<(), NetError> {
    for asked in ["a", "b"] {
        drop(client.lookup(query(alloc, asked)?, DnsRequestOptions::default(), 0));
    }
    let query = query(alloc, "a")?;
    let (before, one, none) = call!(
        rt,
        case,
        {
            let before = client.cache().len();
            client.clear_cache_query(&query);
            let one = client.cache().len();
            client.clear_cache();
            (before, one, client.cache().len())
        }
    );
    let _ = println!(rt; "{before} {one} {none}");
    Ok(())
}

fn build(rt: &impl Print, alloc: Global, case: &str) -> Result<(), NetError> {
    let config = with_search(alloc)?;
    let builder = Resolver::builder_with_config(config, ScriptHandle::new(Vec::new(alloc)));
    let built = call!(rt, case, builder.build());
    match &built {
        Ok(resolver) => {
            let _ = println!(rt; "{resolver:?}");
        }
        Err(error) => say(rt, error),
    }
    drop(built);
    Ok(())
}

//! Calls of a resolver that wait: what a step gives, what the cache keeps then, and what the same call starts with
//! after it.
use crate::memory::clients::{Upstream, resolver, show_kept};
use crate::memory::marks::done;
use crate::memory::waits::waiting_of;
use crate::sample::{Said, no_such_name, outcome_of};
use crate::shown::{say_waits, show_made};
use hickory_proto_core::{DnsResponse, Name, NetError, Query, RecordType};
use hickory_resolver::{CallProgress, LookupIpStrategy, Resolver};
use std::alloc::Global;

/// Makes the call of a case, and says whether there is such a case.
pub fn make(rt: &impl Print, alloc: Global, case: &str) -> Result<bool, NetError> {
    match case {
        "Resolver::start_lookup"
        | "Resolver::start_lookup of a hit"
        | "Resolver::start_lookup_ip"
        | "Resolver::start_lookup_ip of an address"
        | "Resolver::resume to the next name" => {
            done(with_resolver(rt, alloc, case, LookupIpStrategy::default()))
        }
        "Resolver::resume with the other family" => {
            done(with_resolver(rt, alloc, case, LookupIpStrategy::Ipv4AndIpv6))
        }
        _ => Ok(false),
    }
}

fn with_resolver(
    rt: &impl Print,
    alloc: Global,
    case: &str,
    strategy: LookupIpStrategy,
) -> Result<(), NetError> {
    let mut resolver = resolver(alloc, strategy)?;
    let made = with_mut_resolver(rt, alloc, case, &mut resolver);
    drop(resolver);
    made
}

// What the step gives, what the cache keeps of `a.` and `h.`, and what the call starts with then.
fn with_mut_resolver(
    rt: &impl Print,
    alloc: Global,
    case: &str,
    resolver: &mut Resolver<Upstream>,
) -> Result<(), NetError> {
    match case {
        "Resolver::resume with the other family" => resume_family(rt, alloc, case, resolver)?,
        "Resolver::resume to the next name" => resume_next(rt, alloc, case, resolver)?,
        _ => {
            drop(resolver.ipv4_lookup("a.", 0));
            show_progress(rt, call!(rt, case, start(case, resolver)));
        }
    }
    show_kept(rt, alloc, resolver.client().cache(), &["a", "h"])?;
    let _ = rt.print("again: ");
    show_progress(rt, start(case, resolver));
    Ok(())
}

// The search domain comes before a name without a mark.
fn start(case: &str, resolver: &mut Resolver<Upstream>) -> CallProgress {
    match case {
        "Resolver::start_lookup of a hit" => resolver.start_lookup("a.", RecordType::A, 0),
        "Resolver::start_lookup_ip" => resolver.start_lookup_ip("a.", 0),
        "Resolver::start_lookup_ip of an address" => resolver.start_lookup_ip("127.0.0.1", 0),
        "Resolver::resume with the other family" => resolver.start_lookup_ip("h.", 0),
        _ => resolver.start_lookup("a", RecordType::A, 0),
    }
}

// The addresses of one family are kept. Those of the other come back, and are kept and joined to them.
fn resume_family(
    rt: &impl Print,
    alloc: Global,
    case: &str,
    resolver: &mut Resolver<Upstream>,
) -> Result<(), NetError> {
    let first = waiting_of(start(case, resolver))?;
    let second = waiting_of(resolver.resume(
        first,
        outcome_of(alloc, "h", RecordType::A, Said::Address),
    ))?;
    let outcome = outcome_of(alloc, "h", RecordType::AAAA, Said::Ipv6Address);
    show_progress(rt, call!(rt, case, resolver.resume(second, outcome)));
    Ok(())
}

// There is no name at the search domain, which is kept, and the name itself is asked for.
fn resume_next(
    rt: &impl Print,
    alloc: Global,
    case: &str,
    resolver: &mut Resolver<Upstream>,
) -> Result<(), NetError> {
    let asked = Query::query(Name::from_ascii(alloc, "a.x.")?, RecordType::A);
    let outcome = DnsResponse::from_message(no_such_name(alloc, Ok(asked))?);
    let waiting = waiting_of(start(case, resolver))?;
    show_progress(rt, call!(rt, case, resolver.resume(waiting, Ok(outcome))));
    Ok(())
}

// What a call came to.
fn show_progress(rt: &impl Print, progress: CallProgress) {
    match &progress {
        CallProgress::Waiting(waiting) => say_waits(rt, waiting.question()),
        CallProgress::Done(reply) => show_made(rt, reply),
    }
    drop(progress);
}

//! Runs: the replies, what was asked, and what the cache keeps then.
use crate::memory::clients::{BEHIND, show_client};
use crate::memory::marks::done;
use crate::parts::{both, whole};
use crate::sample::{Pair, Said, table, text};
use crate::shown::say;
use hickory_proto_core::{Exchange, NetError, RecordType, Recorded, TableHandle};
use hickory_resolver::{
    Heard, Hosts, Listener, LookupIpStrategy, Reply, Request, ResolverConfig, ResolverOpts, Step,
    Transcript, run, run_told, run_with_hasher,
};
use std::alloc::{AllocError, Global};
use std::hash::{BuildHasherDefault, FoldHasher};

const A: RecordType = RecordType::A;

// An alias, and the address of its canonical name, which is then asked for itself.
const ALIASED: [Pair; 2] = [("a", A, Said::Alias("b")), ("b", A, Said::Address)];

// Each name is an alias of the next.
const CHAIN: [Pair; 8] = [
    ("n0", A, Said::Alias("n1")),
    ("n1", A, Said::Alias("n2")),
    ("n2", A, Said::Alias("n3")),
    ("n3", A, Said::Alias("n4")),
    ("n4", A, Said::Alias("n5")),
    ("n5", A, Said::Alias("n6")),
    ("n6", A, Said::Alias("n7")),
    ("n7", A, Said::Alias("n8")),
];

const CHAINED: [&str; 9] = ["n0", "n1", "n2", "n3", "n4", "n5", "n6", "n7", "n8"];

// A host that has one family, and a name that is not answered in time.
const HOSTS: [Pair; 3] = [
    ("h", A, Said::Address),
    ("h", RecordType::AAAA, Said::NoName),
    ("t", A, Said::Late),
];

// What is asked: as a script says it, a name, a type, and the moment.
type Asked = (&'static str, &'static str, RecordType, u64);

// The addresses of the host; that it lacks a family, out of the cache; its address, cleared and asked again; the name
// that is not answered; and all is cleared.
const OF_TABLE: [Asked; 6] = [
    ("lookup_ip", "h.", A, 10),
    ("lookup", "h.", RecordType::AAAA, 25),
    ("clear_lookup", "h.", A, 25),
    ("lookup", "h.", A, 26),
    ("lookup", "t.", A, 26),
    ("clear", "", A, 26),
];

/// Makes the call of a case, and says whether there is such a case.
pub fn make(rt: &impl Print, alloc: Global, case: &str) -> Result<bool, NetError> {
    let two = ["a", "b"];
    match case {
        "run: an alias" | "run_with_hasher" => {
            done(run_table(rt, alloc, case, true, &ALIASED, &two))
        }
        "run: eight hops" => done(run_table(rt, alloc, case, false, &CHAIN, &CHAINED)),
        "run: a table" => done(run_table(rt, alloc, case, false, &HOSTS, &["h", "t"])),
        "run: a handle without memory, and a later request" => {
            done(run_table(rt, alloc, case, false, &BEHIND, &two))
        }
        "run_told" => done(run_to_listener(rt, alloc, case, &two)),
        _ => Ok(false),
    }
}

// Keeps the steps that it hears of.
#[derive(Drop)]
struct Keeper {
    steps: Vec<Step>,
}

impl Listener for Keeper {
    ghost hears = { λ _ _ _ _ _. Unit {0} };

    fn hear(
        &mut self,
        _request: &Request,
        _sent: &[Exchange],
        step: Step,
    ) -> Result<(), AllocError> {
        Ok(self.steps.push(step)?)
    }
}

type Told = Heard<Recorded<TableHandle>, BuildHasherDefault<FoldHasher>, Keeper>;

fn requests(alloc: Global, case: &str) -> Result<Vec<Request>, NetError> {
    let asked: &[Asked] = match case {
        "run: eight hops" => &[("lookup", "n0.", A, 0)],
        "run: a table" => &OF_TABLE,
        _ => &[("lookup", "a.", A, 0), ("lookup", "b.", A, 4)],
    };
    let mut requests = Vec::new(alloc);
    whole(push_requests(alloc, asked, &mut requests), requests)
}

fn push_requests(
    alloc: Global,
    asked: &[Asked],
    requests: &mut Vec<Request>,
) -> Result<(), NetError> {
    for asked in asked {
        requests.push(request(alloc, *asked)?)?;
    }
    Ok(())
}

fn request(alloc: Global, (verb, name, record_type, now): Asked) -> Result<Request, NetError> {
    let name = text(alloc, name)?;
    match verb {
        "lookup" => Ok(Request::Lookup {
            name,
            record_type,
            now,
        }),
        "lookup_ip" => Ok(Request::LookupIp { host: name, now }),
        "clear_lookup" => Ok(Request::ClearLookup {
            name,
            record_type,
            now,
        }),
        _ => {
            drop(name);
            Ok(Request::Clear { now })
        }
    }
}

// Options of a run, which asks for both families.
fn options(alloc: Global, preserves: bool) -> ResolverOpts {
    let mut options = ResolverOpts::default(alloc);
    options.preserve_intermediates = preserves;
    options.ip_strategy = LookupIpStrategy::Ipv4AndIpv6;
    options
}

fn run_table(
    rt: &impl Print,
    alloc: Global,
    case: &str,
    preserves: bool,
    pairs: &[Pair],
    labels: &[&str],
) -> Result<(), NetError> {
    let (requests, handle) = both(requests(alloc, case), table(alloc, pairs))?;
    let options = options(alloc, preserves);
    let answer = call!(rt, case, run_by(alloc, case, options, handle, &requests));
    drop(requests);
    show_run(rt, alloc, answer, labels)
}

fn run_by(
    alloc: Global,
    case: &str,
    options: ResolverOpts,
    handle: TableHandle,
    requests: &[Request],
) -> Result<Transcript<TableHandle>, NetError> {
    let (config, hosts) = (ResolverConfig::default(alloc), Hosts::default(alloc));
    match case {
        "run_with_hasher" => {
            let hasher = BuildHasherDefault::new();
            run_with_hasher(config, options, hosts, handle, requests, hasher)
        }
        _ => run(config, options, hosts, handle, requests),
    }
}

fn show_steps(rt: &impl Print, steps: &[Step]) {
    say(rt, &"a run");
    for step in steps {
        let _ = rt.print("  at ");
        let _ = rt.print(step.now);
        let _ = rt.print(" ");
        show_reply(rt, &step.reply);
    }
}

fn show_reply(rt: &impl Print, reply: &Reply) {
    match reply {
        Reply::Lookup(Ok(found)) => {
            let _ = println!(rt; "until {}", found.valid_until());
        }
        Reply::LookupIp(Ok(found)) => {
            let _ = println!(rt; "until {}", found.valid_until());
        }
        Reply::Cleared(Ok(())) => say(rt, &"cleared"),
        Reply::Lookup(Err(error)) | Reply::LookupIp(Err(error)) | Reply::Cleared(Err(error)) => {
            say(rt, error)
        }
    }
}

// The replies, what was asked, and what the cache keeps; or that there is no run.
fn show_run(
    rt: &impl Print,
    alloc: Global,
    answer: Result<Transcript<TableHandle>, NetError>,
    labels: &[&str],
) -> Result<(), NetError> {
    match answer {
        Ok(transcript) => {
            show_steps(rt, transcript.steps());
            let resolver = transcript.into_resolver();
            let client = resolver.client();
            let shown = show_client(
                rt,
                alloc,
                client.handle().exchanges(),
                client.cache(),
                labels,
            );
            drop(resolver);
            shown
        }
        Err(error) => {
            say(rt, &error);
            Ok(())
        }
    }
}

// The steps of a run, of which a listener hears. Where it has no room for one, there is no run.
fn run_to_listener(
    rt: &impl Print,
    alloc: Global,
    case: &str,
    labels: &[&str],
) -> Result<(), NetError> {
    let (requests, handle) = both(requests(alloc, case), table(alloc, &ALIASED))?;
    let told = call!(rt, case, tell(alloc, handle, &requests));
    drop(requests);
    let shown = match &told {
        Ok(told) => {
            show_steps(rt, &told.listener.steps);
            let client = told.resolver.client();
            show_client(
                rt,
                alloc,
                client.handle().exchanges(),
                client.cache(),
                labels,
            )
        }
        Err(error) => {
            say(rt, error);
            Ok(())
        }
    };
    drop(told);
    shown
}

fn tell(alloc: Global, handle: TableHandle, requests: &[Request]) -> Result<Told, NetError> {
    let (config, hosts) = (ResolverConfig::default(alloc), Hosts::default(alloc));
    let keeper = Keeper {
        steps: Vec::new(alloc),
    };
    let (options, hasher) = (options(alloc, true), BuildHasherDefault::new());
    run_told(config, options, hosts, handle, requests, hasher, keeper)
}

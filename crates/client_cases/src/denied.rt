//! What is left of replies where addresses are denied, and no TTL is above 600 seconds; and how many answers there are
//! where nothing is denied.
use crate::replies::{kept_of, show_lines};
use hickory_proto_core::{IpNet, Message, Outcome, Query};
use hickory_resolver_filters::AnswerFilter;
use replay_script::read_script;
use std::alloc::Global;
use std::net::{IpAddr, Ipv4Addr, Ipv6Addr};
use whole_lookups::{cap, without_denied};

/// Each reply of a script.
pub fn run(rt: &impl Print, alloc: Global, script: &[u8]) -> anyhow::Result<()> {
    let script = read_script(alloc, script)?;
    for (query, outcome) in &script.outcomes {
        if let Ok(response) = outcome {
            show_filtered(rt, alloc, query, response.message())?;
            show_whole(rt, alloc, query, response.message())?;
        }
    }
    Ok(())
}

// 192.0.2.0/24 and 2001:db8::53:0/112 are denied, and 192.0.2.128/25 is allowed.
fn show_filtered(
    rt: &impl Print,
    alloc: Global,
    query: &Query,
    message: &Message,
) -> anyhow::Result<()> {
    let _ = rt.println(query);
    let deny = [
        IpNet::new(IpAddr::V4(Ipv4Addr::new(192, 0, 2, 0)), 24),
        IpNet::new(
            IpAddr::V6(Ipv6Addr::new(0x2001, 0xdb8, 0, 0, 0, 0, 0x53, 0)),
            112,
        ),
    ];
    let allow = [IpNet::new(IpAddr::V4(Ipv4Addr::new(192, 0, 2, 128)), 25)];
    let by = AnswerFilter {
        allow: &allow,
        deny: &deny,
    };
    if let Some(mut kept) = kept_of(alloc, query, true, message)? {
        without_denied(&by, &mut kept);
        cap(600, &mut kept);
        show_lines(rt, &kept);
    }
    Ok(())
}

fn show_whole(
    rt: &impl Print,
    alloc: Global,
    query: &Query,
    message: &Message,
) -> anyhow::Result<()> {
    let by = AnswerFilter {
        allow: &[],
        deny: &[],
    };
    if let Some(mut kept) = kept_of(alloc, query, true, message)? {
        without_denied(&by, &mut kept);
        let _ = rt.print("  of ");
        let _ = rt.println(kept.answers.len());
    }
    Ok(())
}

//! What is kept of replies, each beside its question, and what is kept beside that where DNSSEC records were asked; and
//! where aliases lead to the question of the next reply, both put together, as they are 20 seconds later.
use hickory_proto_core::{Message, Outcome, Query, Record};
use hickory_proto_wire::WireMessage;
use replay_script::read_script;
use std::alloc::Global;
use whole_replies::KeptReply;

/// Each reply of a script.
pub fn run(rt: &impl Print, alloc: Global, script: &[u8]) -> anyhow::Result<()> {
    let script = read_script(alloc, script)?;
    show_all(rt, alloc, &script.outcomes)
}

fn show_all(rt: &impl Print, alloc: Global, outcomes: &[(Query, Outcome)]) -> anyhow::Result<()> {
    let mut before = None;
    for (query, outcome) in outcomes {
        if let Ok(response) = outcome {
            let message = response.message();
            show_reply(rt, alloc, query, message)?;
            show_behind(rt, alloc, before, query, message)?;
            before = Some((query, message));
        }
    }
    Ok(())
}

fn show_reply(
    rt: &impl Print,
    alloc: Global,
    query: &Query,
    message: &Message,
) -> anyhow::Result<()> {
    let _ = rt.println(query);
    show_kept(rt, &kept_of(alloc, query, false, message)?);
    let _ = rt.println("  with DNSSEC");
    show_kept(rt, &kept_of(alloc, query, true, message)?);
    Ok(())
}

// Where the reply before leads to this one's question, both.
fn show_behind(
    rt: &impl Print,
    alloc: Global,
    before: Option<(&Query, &Message)>,
    query: &Query,
    message: &Message,
) -> anyhow::Result<()> {
    if let Some((first, reply)) = before {
        if leads_to(alloc, first, reply, query)? {
            let _ = rt.println("  both, 20 seconds later");
            show_both(
                rt,
                kept_of(alloc, first, false, reply)?,
                kept_of(alloc, query, false, message)?,
            )?;
        }
    }
    Ok(())
}

fn leads_to(alloc: Global, first: &Query, reply: &Message, query: &Query) -> anyhow::Result<bool> {
    let reply = wire_message(false, reply)?;
    let (_kept, next) = KeptReply::copy_of(alloc, first, false, &reply)?;
    match next {
        Some(next) => Ok(next == *query),
        None => Ok(false),
    }
}

fn show_both(
    rt: &impl Print,
    first: Option<KeptReply>,
    last: Option<KeptReply>,
) -> anyhow::Result<()> {
    if let (Some(mut kept), Some(last)) = (first, last) {
        kept.append(last)?;
        kept.age(20);
        show_lines(rt, &kept);
    }
    Ok(())
}

/// What is kept of a reply, which is authentic where DNSSEC records were asked.
pub fn kept_of(
    alloc: Global,
    query: &Query,
    dnssec: bool,
    message: &Message,
) -> anyhow::Result<Option<KeptReply>> {
    let reply = wire_message(dnssec, message)?;
    Ok(KeptReply::of(alloc, query, dnssec, reply)?)
}

fn wire_message(authentic: bool, message: &Message) -> anyhow::Result<WireMessage> {
    Ok(WireMessage {
        is_response: true,
        reserved: false,
        authentic_data: authentic,
        checking_disabled: false,
        edns: None,
        message: message.clone()?,
    })
}

fn show_kept(rt: &impl Print, kept: &Option<KeptReply>) {
    match kept {
        Some(kept) => show_lines(rt, kept),
        None => {
            let _ = rt.println("  not kept");
        }
    }
}

/// A line for the whole, and one for each record.
pub fn show_lines(rt: &impl Print, kept: &KeptReply) {
    let _ = rt.print("  ");
    let _ = rt.print(kept.code);
    let _ = rt.print(" for ");
    let _ = rt.print(kept.seconds);
    let _ = rt.println(if kept.authentic_data {
        ", authentic"
    } else {
        ""
    });
    show_records(rt, "  answer ", &kept.answers);
    show_records(rt, "  authority ", &kept.authorities);
}

fn show_records(rt: &impl Print, section: &str, records: &[Record]) {
    for found in records {
        let _ = rt.print(section);
        let _ = rt.println(found);
    }
}

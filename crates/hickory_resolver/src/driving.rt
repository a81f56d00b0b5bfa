//! The loop over a call: each question is sent, and the call goes on with what comes back.
ghost use Rattle.std.specs.Prelude.{reverse};
ghost use Rattle.hickory_resolver_client.specs.Contexts.{progress_of};
ghost use Rattle.hickory_resolver_model.specs.Resolver.{LooksUp};
ghost use Rattle.hickory_resolver.specs.CallSteps.{plan_value};
ghost use Rattle.hickory_resolver.specs.Driving.{EndsNames, IsGiven};

use crate::calling::{advance_call, start_names};
use crate::waiting_call::CallProgress;
use hickory_proto_core::{DnsHandle, DnsRequestOptions, Name, NetError, RData};
use hickory_resolver_attempts::Sought;
use hickory_resolver_client::{CachingClient, Progress};
use hickory_resolver_hosts::Hosts;
use hickory_resolver_lookup::Lookup;
use std::hash::BuildHasher;

/// Looks names up by a client, from the last of the list to the first, at a moment (seconds). The flag says whether
/// the table of hosts is asked for the first name that is attempted. Where no name has answers, the literal is the
/// reply, if given.
pub fn look_up_names<H: DnsHandle, S: BuildHasher, T: BuildHasher>(
    names: Vec<Name>,
    sought: Sought,
    literal: Option<RData>,
    with_hosts: bool,
    options: DnsRequestOptions,
    client: &mut CachingClient<H, S>,
    hosts: &Hosts<T>,
    now: u64,
) -> Result<Lookup, NetError>
    ensures { LooksUp H.step options hosts.now now (plan_value sought literal now) with_hosts (reverse names.items)
        client.old result client.new }
{
    let progress = start_names(names, sought, literal, with_hosts, client, hosts, now);
    drive(progress, options, client, hosts)
}

/// Drives a call to its end: its questions are sent with these options, and it goes on with what comes back.
pub fn drive<H: DnsHandle, S: BuildHasher, T: BuildHasher>(
    progress: CallProgress,
    options: DnsRequestOptions,
    client: &mut CachingClient<H, S>,
    hosts: &Hosts<T>,
) -> Result<Lookup, NetError>
    ensures names { EndsNames H.step options hosts.now (progress_of progress) client.old result client.new }
    ensures given { IsGiven (progress_of progress) client.old result client.new }
{
    let mut progress = progress;
    loop {
        match progress {
            Progress::Waiting(waiting) => progress = advance_call(waiting, options, client, hosts),
            Progress::Done(result) => return result,
        }
    }
}

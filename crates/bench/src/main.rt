//! Times the cache, names, the client, tables of hosts and scripts, in nanoseconds an operation, where there is an
//! argument. Without one it prints nothing.
#![tactic(auto)]

mod by_size;
mod client;
mod host_times;
mod hostile_times;
mod measure;
mod name_times;
mod samples;
mod script_times;

use measure::Stopwatch;
use std::alloc::Global;
use std::env;
use std::rt::Clock;

fn main(rt: HostRuntime) -> anyhow::Result<()> {
    if env::args(&rt)?.nth(1).is_none() {
        return Ok(());
    }
    print_times(&rt, rt.alloc())
}

// What was computed is printed too, so that no operation is left out when the program is built.
fn print_times<R: Clock + Print>(rt: &R, alloc: Global) -> anyhow::Result<()> {
    let mut watch = Stopwatch { rt, seen: 0 };
    by_size::print_times(rt, alloc, &mut watch)?;
    name_times::print_times(alloc, &mut watch)?;
    client::print_times(alloc, &mut watch)?;
    host_times::print_times(alloc, &mut watch)?;
    hostile_times::print_times(alloc, &mut watch)?;
    script_times::print_times(alloc, &mut watch)?;
    println!(rt; "check sum {}", watch.seen)?;
    Ok(())
}

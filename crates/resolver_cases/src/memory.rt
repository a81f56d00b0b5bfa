//! Calls, each between two marks, with what they answered and what stands behind it.

/// Makes a call between the two marks, and gives its answer.
macro_rules! call {
    ($rt:expr, $case:expr, $call:expr) => {{
        crate::memory::marks::begin($rt, $case);
        let answer = $call;
        crate::memory::marks::end($rt);
        answer
    }};
}

mod caches;
mod calls;
mod clients;
mod configs;
mod copies;
mod handles;
mod lookups;
mod marks;
mod messages;
mod names;
mod runs;
mod scripts;
mod tables;
mod waits;
mod wire;
mod without;

pub use clients::Upstream;
pub use handles::ask_each;
use hickory_proto_core::NetError;
use std::alloc::Global;

/// Makes the call of this name.
pub fn make(rt: &impl Print, alloc: Global, case: &str) -> Result<(), NetError> {
    let is_made = names::make(rt, alloc, case)?
        || messages::make(rt, alloc, case)?
        || copies::make(rt, alloc, case)?
        || handles::make(rt, alloc, case)?
        || lookups::make(rt, alloc, case)?
        || caches::make(rt, alloc, case)?
        || configs::make(rt, alloc, case)?
        || tables::make(rt, alloc, case)?
        || clients::make(rt, alloc, case)?
        || runs::make(rt, alloc, case)?
        || waits::make(rt, alloc, case)?
        || calls::make(rt, alloc, case)?
        || wire::make(rt, alloc, case)?
        || scripts::make(rt, alloc, case)?
        || without::make(rt, alloc, case)?;
    if !is_made {
        let _ = println!(rt; "no such case: {case}");
    }
    Ok(())
}

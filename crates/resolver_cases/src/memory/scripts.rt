//! Scripts, and lines of them.
use crate::shown::{Shown, say, say_part, show, show_answered};
use hickory_proto_core::NetError;
use replay_script::{Line, Script, read_line, read_script};
use std::alloc::Global;

const SCRIPT: &[u8] = b"domain d.\nsearch x.\nreply NOERROR a. A\nanswer a. 60 IN A 192.0.2.1\n\
fail timeout b. A\nat 0 lookup a. A\nat 1 lookup_ip b.\n";

// More fields than there is room for without memory.
const RECORD: &[u8] = b"answer t. 5 IN TXT 61 62 63 64";

/// Makes the call of a case, and says whether there is such a case.
pub fn make(rt: &impl Print, alloc: Global, case: &str) -> Result<bool, NetError> {
    match case {
        "read_script" => show(rt, call!(rt, case, read_script(alloc, SCRIPT))),
        "read_line" => show(rt, call!(rt, case, read_line(alloc, true, RECORD))),
        "no memory: read_line of a comment" => {
            show(rt, call!(rt, case, read_line(alloc, true, b"# nothing")));
        }
        _ => return Ok(false),
    }
    Ok(true)
}

// What the upstream answers, and how many requests there are.
impl Shown for Script {
    fn show(&self, rt: &impl Print) {
        say(rt, &"a script");
        for (query, outcome) in &self.outcomes {
            show_answered(rt, "outcome", query, outcome);
        }
        say_part(rt, "requests", &self.requests.len());
    }
}

impl Shown for Line {
    fn show(&self, rt: &impl Print) {
        match self {
            Line::Record(_, found) => say(rt, found),
            _ => say(rt, &"no record"),
        }
    }
}

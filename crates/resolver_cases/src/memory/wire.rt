//! Messages as bytes.
use crate::shown::{Shown, say_part, show};
use hickory_proto_core::NetError;
use hickory_proto_wire::WireMessage;
use std::alloc::Global;

// A response to a question for the addresses of `www.a.`: its address, a record of another type and the server of the
// zone, whose names point back, and an OPT record with one option.
const BYTES: &[u8] = b"\x00\x07\x81\x80\x00\x01\x00\x02\x00\x01\x00\x01\
\x03www\x01a\x00\x00\x01\x00\x01\
\xc0\x0c\x00\x01\x00\x01\x00\x00\x00\x3c\x00\x04\xc0\x00\x02\x01\
\xc0\x0c\x00\x10\x00\x01\x00\x00\x00\x3c\x00\x04\x03one\
\xc0\x10\x00\x02\x00\x01\x00\x00\x00\x09\x00\x04\x01n\xc0\x10\
\x00\x00\x29\x04\xd0\x00\x00\x80\x00\x00\x04\x00\x0a\x00\x00";

/// Makes the call of a case, and says whether there is such a case.
pub fn make(rt: &impl Print, alloc: Global, case: &str) -> Result<bool, NetError> {
    let bytes = match case {
        "WireMessage::from_wire" => BYTES,
        "no memory: WireMessage::from_wire of half a header" => b"\x00\x07\x81\x80",
        _ => return Ok(false),
    };
    show(rt, call!(rt, case, WireMessage::from_wire(alloc, bytes)));
    Ok(true)
}

impl Shown for WireMessage {
    fn show(&self, rt: &impl Print) {
        self.message.show(rt);
        if let Some(edns) = &self.edns {
            say_part(rt, "size", &edns.size);
            say_part(rt, "octets of options", &edns.options.len());
        }
    }
}

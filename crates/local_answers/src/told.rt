//! The reply to a question for all types.
ghost use Rattle.std.specs.Prelude.{◌≡◌, IfOk};
ghost use Rattle.local_answers.specs.Told.{any_reply};

use crate::choices::ANY_SECONDS;
use crate::replies::record_reply;
use hickory_proto_core::{Query, RData};
use std::alloc::{AllocError, Global};
use whole_replies::KeptReply;

/// The code of HINFO (RFC 1035, section 3.3.2).
pub const HINFO: u16 = 13;

/// The data of an HINFO record that say why there is nothing else: the strings `RFC8482` and the empty one.
pub const REFUSED_ANY: [u8; 9] = *b"\x07RFC8482\x00";

/// The reply to a question for all types: one HINFO record (RFC 8482, section 4.2). The only error is to be out of
/// memory.
pub fn any_reply(alloc: Global, query: &Query) -> Result<KeptReply, AllocError>
    ensures { IfOk result (λ made. made ≡ any_reply query.now) }
{
    let bytes = Vec::from_slice(alloc, &REFUSED_ANY)?;
    record_reply(
        alloc,
        query,
        ANY_SECONDS,
        RData::Unknown { code: HINFO, bytes },
    )
}

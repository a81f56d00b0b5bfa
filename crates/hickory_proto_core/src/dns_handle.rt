//! Handles, by which an upstream is asked.
ghost use Rattle.std.specs.Prelude.{Result};
ghost use Rattle.hickory_proto_core.specs.declared.dns_request.DnsRequest.{DnsRequest};
ghost use Rattle.hickory_proto_core.specs.declared.net_error.NetError.{NetError};
ghost use Rattle.hickory_proto_core.specs.Messages.{MessageValue};

use crate::dns_request::DnsRequest;
use crate::dns_response::DnsResponse;
use crate::net_error::NetError;

/// What came back for a request.
pub type Outcome = Result<DnsResponse, NetError>;

/// An upstream. Each kind of handle states by the relation `step` what it may answer to a request, and
/// what stands after it; where it states none, every step is allowed.
pub trait DnsHandle {
    ghost step: { Self → DnsRequest → Result MessageValue NetError → Self → Type 0 } = { λ _ _ _ _. Unit {0} };

    /// Sends a request, and answers what came back.
    fn send(&mut self, request: &DnsRequest) -> Result<DnsResponse, NetError>
        ensures { step self.old request.now result self.new };
}

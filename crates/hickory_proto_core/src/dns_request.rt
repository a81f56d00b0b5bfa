//! What is sent to an upstream.
ghost use Rattle.std.specs.Prelude.{◌≡◌, true, false};

use crate::query::Query;

/// A question with its options.
#[derive(Debug, Drop)]
pub struct DnsRequest {
    pub query: Query,
    pub options: DnsRequestOptions,
}

/// How a question is to be sent.
#[derive(Clone, Copy, Debug, PartialEq, Eq)]
pub struct DnsRequestOptions {
    /// Whether the server is asked to recurse (RFC 1035, section 4.1.1).
    pub recursion_desired: bool,
    /// Whether the message has an EDNS record (RFC 6891).
    pub use_edns: bool,
    /// The largest payload that is announced by EDNS, in bytes (RFC 6891, section 6.2.3).
    pub edns_payload_len: u16,
    /// Whether the case of the name is varied.
    pub case_randomization: bool,
}

impl Default for DnsRequestOptions {
    ghost use Rattle.std.specs.Prelude.{◌≡◌, true, false};

    ghost is_default = { λ o. o ≡ record {
      recursion_desired = true;
      use_edns = false;
      edns_payload_len = 1232;
      case_randomization = false;
    } };

    fn default() -> DnsRequestOptions {
        DnsRequestOptions {
            recursion_desired: true,
            use_edns: false,
            edns_payload_len: 1232,
            case_randomization: false,
        }
    }
}

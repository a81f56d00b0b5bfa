//! The question of a transaction.
ghost use Rattle.std.specs.Prelude.{◌≡◌};
ghost use Rattle.std.specs.Option.{is_some};

use hickory_proto_core::{DnsRequestOptions, Query};
use std::hash::{Hash, Hasher};

/// What the OPT record of a query says (RFC 6891, section 6.1).
#[derive(Clone, Copy, Debug, PartialEq, Eq)]
pub struct SentOpt {
    /// The largest payload that is announced, in octets (RFC 6891, section 6.2.3).
    pub payload: u16,
    /// Whether DNSSEC records are asked for (RFC 3225, section 3).
    pub dnssec_ok: bool,
}

/// What is asked of DNSSEC besides the records; nothing by default.
#[derive(Clone, Copy, Debug, Default, PartialEq, Eq)]
pub struct DnssecOptions {
    /// Whether DNSSEC records are asked for (RFC 3225, section 3).
    pub dnssec_ok: bool,
    /// Whether the server is asked not to check what it answers (RFC 4035, section 3.2.2).
    pub checking_disabled: bool,
    /// Whether the server is asked to tell what it found to be authentic (RFC 6840, section 5.7).
    pub authentic_data: bool,
}

/// What is asked of a server. Two questions are equal where the same is sent for both, case of the name aside.
#[derive(Debug, Drop)]
pub struct PoolQuestion {
    /// The name, the type and the class.
    pub query: Query,
    /// Whether the server is asked to recurse (RFC 1035, section 4.1.1).
    pub recursion_desired: bool,
    /// Whether the server is asked not to check what it answers (RFC 4035, section 3.2.2).
    pub checking_disabled: bool,
    /// Whether the server is asked to tell what it found to be authentic (RFC 6840, section 5.7).
    pub authentic_data: bool,
    /// The OPT record that is sent, if one is.
    pub opt: Option<SentOpt>,
}

impl PoolQuestion {
    ghost use Rattle.hickory_resolver_tries.specs.Question.{question_of, payload_or_zero, is_dnssec_ok};

    /// The question of a query with these options. Where DNSSEC records are asked for it has OPT, whatever the options
    /// say of EDNS.
    pub fn new(query: Query, options: DnsRequestOptions, dnssec: DnssecOptions) -> PoolQuestion
        ensures { result ≡ question_of query options dnssec }
    {
        let opt = if options.use_edns || dnssec.dnssec_ok {
            Some(SentOpt {
                payload: options.edns_payload_len,
                dnssec_ok: dnssec.dnssec_ok,
            })
        } else {
            None
        };
        PoolQuestion {
            query,
            recursion_desired: options.recursion_desired,
            checking_disabled: dnssec.checking_disabled,
            authentic_data: dnssec.authentic_data,
            opt,
        }
    }

    /// The payload that is announced, in octets; 0 without OPT.
    pub fn payload(&self) -> u16
        ensures { result ≡ payload_or_zero self.now.opt }
    {
        match self.opt {
            None => 0,
            Some(opt) => opt.payload,
        }
    }

    /// Whether DNSSEC records are asked for.
    pub fn is_dnssec_ok(&self) -> bool
        ensures { result ≡ is_dnssec_ok self.now.opt }
    {
        match self.opt {
            None => false,
            Some(opt) => opt.dnssec_ok,
        }
    }
}

impl PartialEq for PoolQuestion {
    ghost use Rattle.std.specs.Cmp.{partial_equiv_from_equiv};
    ghost use Rattle.hickory_resolver_tries.specs.Question.{question_eq, question_equiv};

    ghost eq = { question_eq };

    ghost laws = { partial_equiv_from_equiv question_equiv };

    fn eq(&self, other: &PoolQuestion) -> bool {
        self.query == other.query
            && self.recursion_desired == other.recursion_desired
            && self.checking_disabled == other.checking_disabled
            && self.authentic_data == other.authentic_data
            && self.opt.is_some() == other.opt.is_some()
            && self.payload() == other.payload()
            && self.is_dnssec_ok() == other.is_dnssec_ok()
    }
}

impl Eq for PoolQuestion {
    ghost use Rattle.hickory_resolver_tries.specs.Question.{question_equiv};

    ghost laws = { question_equiv };
}

impl Hash for PoolQuestion {
    ghost use Rattle.hickory_resolver_tries.specs.Question.{question_hash_input, question_respects_eq};

    ghost hash_input = { question_hash_input };

    ghost respects_eq = { question_respects_eq };

    fn hash<H: Hasher>(&self, state: &mut H) {
        self.query.hash(state);
        self.recursion_desired.hash(state);
        self.checking_disabled.hash(state);
        self.authentic_data.hash(state);
        self.opt.is_some().hash(state);
        self.payload().hash(state);
        self.is_dnssec_ok().hash(state);
    }
}

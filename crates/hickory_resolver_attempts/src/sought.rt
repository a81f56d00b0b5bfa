//! What a call looks up for each of its names.
ghost use Rattle.std.specs.Prelude.{◌≡◌, ◌∷◌, [], Err, IfOk, IsOk, IsOkUnless, None};
ghost use Rattle.hickory_proto_core.specs.declared.net_error.NetError.TheVariants.{OutOfMemory};
ghost use Rattle.hickory_resolver_model.specs.Calls.{Says, next_type};
ghost use Rattle.hickory_resolver_attempts.specs.Sought.{asks_for_all, first_type, kept_name_for, no_names_of, order_of, order_value};

use crate::results::{is_out_of_memory, stops};
use hickory_proto_core::{Name, NetError, RecordType};
use hickory_resolver_config::LookupIpStrategy;
use hickory_resolver_lookup::Lookup;

/// What a call looks up for each of its names.
#[derive(Clone, Copy)]
pub enum Sought {
    /// Records of a type. The table of hosts is asked for the first name alone.
    Records(RecordType),
    /// Addresses. The table of hosts is asked for every name.
    Addresses(LookupIpStrategy),
}

/// The types that are looked up for a name.
#[derive(Clone, Copy)]
pub enum Types {
    /// One.
    One(RecordType),
    /// Both, whose results are made one.
    Both(RecordType, RecordType),
    /// The first, and the second where the first has no answers.
    Fallback(RecordType, RecordType),
}

impl Sought {
    /// The types that are looked up for a name.
    pub fn types(self) -> Types
        ensures { order_value result ≡ order_of self }
    {
        let (v4, v6) = (RecordType::A, RecordType::AAAA);
        match self {
            Sought::Records(record_type) => Types::One(record_type),
            Sought::Addresses(LookupIpStrategy::Ipv4Only) => Types::One(v4),
            Sought::Addresses(LookupIpStrategy::Ipv6Only) => Types::One(v6),
            Sought::Addresses(LookupIpStrategy::Ipv4AndIpv6) => Types::Both(v4, v6),
            Sought::Addresses(LookupIpStrategy::Ipv6AndIpv4) => Types::Both(v6, v4),
            Sought::Addresses(LookupIpStrategy::Ipv6thenIpv4) => Types::Fallback(v6, v4),
            Sought::Addresses(LookupIpStrategy::Ipv4thenIpv6) => Types::Fallback(v4, v6),
        }
    }

    /// Whether the table of hosts is asked for every name.
    pub fn asks_hosts_for_all(self) -> bool
        ensures { result ≡ asks_for_all self }
    {
        matches!(self, Sought::Addresses(_))
    }

    // What is said where there is no name.
    pub fn no_names(self) -> NetError
        ensures { Says (no_names_of self) (Err result) }
    {
        match self {
            Sought::Records(_) => NetError::from("can not lookup for no names"),
            Sought::Addresses(_) => NetError::from("can not lookup IPs for no names"),
        }
    }
}

impl Types {
    /// The type that is looked up first.
    pub fn first(self) -> RecordType
        ensures { result ≡ first_type (order_value self) }
    {
        match self {
            Types::One(first) | Types::Both(first, _) | Types::Fallback(first, _) => first,
        }
    }

    /// The name once more, where a second type may follow. The error is that no memory was left.
    pub fn kept_name(self, name: &Name) -> Result<Option<Name>, NetError>
        ensures ok { IfOk result (λ kept_name. kept_name ≡ kept_name_for (order_value self) None name.now) }
        ensures err { IsOkUnless result OutOfMemory }
        ensures none { kept_name_for (order_value self) None name.now ≡ None → IsOk result }
    {
        match self {
            Types::One(_) => Ok(None),
            Types::Both(_, _) | Types::Fallback(_, _) => Ok(Some(name.clone()?)),
        }
    }

    /// The type that is looked up after the result of the first.
    pub fn second(self, first: &Result<Lookup, NetError>) -> Option<RecordType>
        ensures { result ≡ next_type (order_value self) (first.now ∷ []) }
    {
        match self {
            Types::One(_) => None,
            Types::Both(_, second) => match is_out_of_memory(first) {
                true => None,
                false => Some(second),
            },
            Types::Fallback(_, second) => match stops(first) {
                true => None,
                false => Some(second),
            },
        }
    }
}

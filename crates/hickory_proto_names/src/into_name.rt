//! What may be given for a name.
ghost use Rattle.std.specs.Prelude.{◌≡◌, Option, Result};
ghost use Rattle.std.specs.declared.net.IpAddr.{IpAddr};
ghost use Rattle.hickory_proto_names.specs.Name.{NameValue};
ghost use Rattle.hickory_proto_names.specs.declared.name_error.NameError.{NameError};

use crate::ip::read_ip;
use crate::name::Name;
use crate::name_error::NameError;
use std::alloc::Global;
use std::net::{IpAddr, Ipv4Addr, Ipv6Addr};

/// What may be given for a name: a text, a name, or an address.
pub trait IntoName {
    ghost to_ip_gives: { Self → Option IpAddr → Type 0 };

    ghost into_name_gives: { Self → Result NameValue NameError → Type 0 };

    /// The address, of a text that spells one. Takes no memory.
    fn to_ip(&self) -> Option<IpAddr>
        ensures { to_ip_gives self.now result };

    /// The name: that of a text, or the arpa name of an address.
    fn into_name(self, alloc: Global) -> Result<Name, NameError>
        ensures { into_name_gives self result };
}

impl IntoName for &str {
    ghost use Rattle.hickory_proto_names.specs.NameGiven.{IsReadAddress, IsReadName};

    ghost to_ip_gives = { λ text result. IsReadAddress text.now result };

    ghost into_name_gives = { λ text result. IsReadName text.now result };

    fn to_ip(&self) -> Option<IpAddr> {
        read_ip(self)
    }

    fn into_name(self, alloc: Global) -> Result<Name, NameError> {
        Name::from_ascii(alloc, self)
    }
}

impl IntoName for String {
    ghost use Rattle.std.specs.String.{string_bytes};
    ghost use Rattle.hickory_proto_names.specs.NameGiven.{IsReadAddress, IsReadName};

    ghost to_ip_gives = { λ text result. IsReadAddress (string_bytes text) result };

    ghost into_name_gives = { λ text result. IsReadName (string_bytes text) result };

    fn to_ip(&self) -> Option<IpAddr> {
        read_ip(self.as_str())
    }

    fn into_name(self, alloc: Global) -> Result<Name, NameError> {
        Name::from_ascii(alloc, self.as_str())
    }
}

impl IntoName for Name {
    ghost use Rattle.std.specs.Prelude.{◌≡◌, None, Ok};

    ghost to_ip_gives = { λ name result. result ≡ None };

    ghost into_name_gives = { λ name result. result ≡ Ok name };

    fn to_ip(&self) -> Option<IpAddr> {
        None
    }

    fn into_name(self, _alloc: Global) -> Result<Name, NameError> {
        Ok(self)
    }
}

impl IntoName for IpAddr {
    ghost use Rattle.std.specs.Prelude.{◌≡◌, None};
    ghost use Rattle.hickory_proto_names.specs.NameGiven.{IsNameOfAddress};

    ghost to_ip_gives = { λ address result. result ≡ None };

    ghost into_name_gives = { IsNameOfAddress };

    fn to_ip(&self) -> Option<IpAddr> {
        None
    }

    fn into_name(self, alloc: Global) -> Result<Name, NameError> {
        Name::from_ip(alloc, self)
    }
}

impl IntoName for Ipv4Addr {
    ghost use Rattle.std.specs.Prelude.{◌≡◌, None};
    ghost use Rattle.std.specs.declared.net.IpAddr.TheVariants.{V4};
    ghost use Rattle.hickory_proto_names.specs.NameGiven.{IsNameOfAddress};

    ghost to_ip_gives = { λ address result. result ≡ None };

    ghost into_name_gives = { λ address result. IsNameOfAddress (V4 address) result };

    fn to_ip(&self) -> Option<IpAddr> {
        None
    }

    fn into_name(self, alloc: Global) -> Result<Name, NameError> {
        Name::from_ip(alloc, IpAddr::V4(self))
    }
}

impl IntoName for Ipv6Addr {
    ghost use Rattle.std.specs.Prelude.{◌≡◌, None};
    ghost use Rattle.std.specs.declared.net.IpAddr.TheVariants.{V6};
    ghost use Rattle.hickory_proto_names.specs.NameGiven.{IsNameOfAddress};

    ghost to_ip_gives = { λ address result. result ≡ None };

    ghost into_name_gives = { λ address result. IsNameOfAddress (V6 address) result };

    fn to_ip(&self) -> Option<IpAddr> {
        None
    }

    fn into_name(self, alloc: Global) -> Result<Name, NameError> {
        Name::from_ip(alloc, IpAddr::V6(self))
    }
}

//! Types of records.
ghost use Rattle.std.specs.Prelude.{◌≡◌, nat_eq};
ghost use Rattle.hickory_proto_codes.specs.Codes.{type_code, type_named, type_of_word, type_of};

use crate::code_word::code_after;
use crate::unknown_word::UnknownWord;
use std::fmt;
use std::hash::{Hash, Hasher};
use std::str::FromStr;

/// The type of a record, or of the records that a question asks for (RFC 1035, section 3.2.2).
/// Two are equal where their codes are.
#[derive(Clone, Copy, Debug)]
pub enum RecordType {
    /// A host's IPv4 address (RFC 1035, section 3.4.1).
    A,
    /// An authoritative name server (RFC 1035, section 3.3.11).
    NS,
    /// The canonical name of an alias (RFC 1035, section 3.3.1).
    CNAME,
    /// The start of a zone of authority (RFC 1035, section 3.3.13).
    SOA,
    /// A pointer to another name (RFC 1035, section 3.3.12).
    PTR,
    /// A mail exchange (RFC 1035, section 3.3.9).
    MX,
    /// Text strings (RFC 1035, section 3.3.14).
    TXT,
    /// A host's IPv6 address (RFC 3596, section 2.1).
    AAAA,
    /// The location of a service (RFC 2782).
    SRV,
    /// A certificate (RFC 4398).
    CERT,
    /// A TLS certificate association (RFC 6698).
    TLSA,
    /// An S/MIME certificate association (RFC 8162).
    SMIMEA,
    /// Records of every type, in a question (RFC 1035, section 3.2.3).
    ANY,
    /// Every other code.
    Unknown(u16),
}

impl RecordType {
    /// The code that stands for it.
    pub const fn code(self) -> u16
        ensures { result ≡ type_code self }
    {
        match self {
            RecordType::A => 1,
            RecordType::NS => 2,
            RecordType::CNAME => 5,
            RecordType::SOA => 6,
            RecordType::PTR => 12,
            RecordType::MX => 15,
            RecordType::TXT => 16,
            RecordType::AAAA => 28,
            RecordType::SRV => 33,
            RecordType::CERT => 37,
            RecordType::TLSA => 52,
            RecordType::SMIMEA => 53,
            RecordType::ANY => 255,
            RecordType::Unknown(code) => code,
        }
    }

    /// The type of a code, by its name where it has one.
    pub fn from_code(code: u16) -> RecordType
        ensures { result ≡ type_of code }
    {
        RecordType::from(code)
    }

    /// Whether it is the type of a question for every type.
    pub fn is_any(self) -> bool
        ensures { result ≡ nat_eq (type_code self) 255 }
    {
        self.code() == 255
    }

    /// Whether it is the type of an alias.
    pub fn is_cname(self) -> bool
        ensures { result ≡ nat_eq (type_code self) 5 }
    {
        self.code() == 5
    }

    /// The type that a text names: by its word, or by `TYPE` and the decimal number of its code.
    pub fn from_word(text: &str) -> Option<RecordType>
        ensures { result ≡ type_named text.now }
    {
        match type_of_word(text) {
            Some(named) => Some(named),
            None => code_after("TYPE", text).map(RecordType::from),
        }
    }
}

// The type whose word the text is.
fn type_of_word(text: &str) -> Option<RecordType>
    ensures { result ≡ type_of_word text.now }
{
    match text {
        "A" => Some(RecordType::A),
        "NS" => Some(RecordType::NS),
        "CNAME" => Some(RecordType::CNAME),
        "SOA" => Some(RecordType::SOA),
        "PTR" => Some(RecordType::PTR),
        "MX" => Some(RecordType::MX),
        "TXT" => Some(RecordType::TXT),
        "AAAA" => Some(RecordType::AAAA),
        "SRV" => Some(RecordType::SRV),
        "CERT" => Some(RecordType::CERT),
        "TLSA" => Some(RecordType::TLSA),
        "SMIMEA" => Some(RecordType::SMIMEA),
        "ANY" => Some(RecordType::ANY),
        _ => None,
    }
}

/// The type that a text names, as `from_word` reads it.
impl FromStr for RecordType {
    type Err = UnknownWord;

    ghost use Rattle.std.specs.Prelude.{◌≡◌};
    ghost use Rattle.std.specs.Result.{result_ok};
    ghost use Rattle.hickory_proto_codes.specs.Codes.{type_named};

    ghost from_str_gives = { λ text r. result_ok r ≡ type_named text };

    fn from_str(text: &str) -> Result<RecordType, UnknownWord> {
        RecordType::from_word(text).ok_or(UnknownWord)
    }
}

impl From<u16> for RecordType {
    ghost use Rattle.std.specs.Prelude.{◌≡◌};
    ghost use Rattle.hickory_proto_codes.specs.Codes.{type_of};

    ghost from_gives = { λ code x. x ≡ type_of code };

    fn from(code: u16) -> RecordType {
        match code {
            1 => RecordType::A,
            2 => RecordType::NS,
            5 => RecordType::CNAME,
            6 => RecordType::SOA,
            12 => RecordType::PTR,
            15 => RecordType::MX,
            16 => RecordType::TXT,
            28 => RecordType::AAAA,
            33 => RecordType::SRV,
            37 => RecordType::CERT,
            52 => RecordType::TLSA,
            53 => RecordType::SMIMEA,
            255 => RecordType::ANY,
            _ => RecordType::Unknown(code),
        }
    }
}

impl PartialEq for RecordType {
    ghost use Rattle.std.specs.Prelude.{nat_eq};
    ghost use Rattle.std.specs.Ordering.{on};
    ghost use Rattle.std.specs.Cmp.Rules.{comparing};
    ghost use Rattle.std.proofs.Common.{rules};
    ghost use Rattle.hickory_proto_codes.specs.Codes.{type_code};

    ghost eq = { on type_code nat_eq };

    ghost laws = { Prim.search (comparing, rules) };

    fn eq(&self, other: &RecordType) -> bool {
        self.code() == other.code()
    }
}

impl Eq for RecordType {
    ghost use Rattle.std.specs.Cmp.Rules.{comparing};
    ghost use Rattle.std.proofs.Common.{rules};

    ghost laws = { Prim.search (comparing, rules) };
}

impl Hash for RecordType {
    ghost use Rattle.std.specs.Hash as fed;
    ghost use Rattle.std.specs.Cmp.Rules.{hashing};
    ghost use Rattle.std.proofs.Common.{rules};
    ghost use Rattle.hickory_proto_codes.specs.Codes.{type_code};

    ghost hash_input = { λ x. fed.u16 (type_code x) };

    ghost respects_eq = { Prim.search (hashing, rules) };

    fn hash<H: Hasher>(&self, state: &mut H) {
        self.code().hash(state);
    }
}

impl fmt::Display for RecordType {
    ghost use Rattle.std.specs.Prelude.{Some};
    ghost use Rattle.hickory_proto_codes.specs.Codes.{type_code, type_text};

    ghost output = { λ x. Some (type_text (type_code x)) };

    fn fmt<W: fmt::Write>(&self, f: &mut fmt::Formatter<W>) -> fmt::Result {
        match RecordType::from(self.code()) {
            RecordType::A => f.write_str("A"),
            RecordType::NS => f.write_str("NS"),
            RecordType::CNAME => f.write_str("CNAME"),
            RecordType::SOA => f.write_str("SOA"),
            RecordType::PTR => f.write_str("PTR"),
            RecordType::MX => f.write_str("MX"),
            RecordType::TXT => f.write_str("TXT"),
            RecordType::AAAA => f.write_str("AAAA"),
            RecordType::SRV => f.write_str("SRV"),
            RecordType::CERT => f.write_str("CERT"),
            RecordType::TLSA => f.write_str("TLSA"),
            RecordType::SMIMEA => f.write_str("SMIMEA"),
            RecordType::ANY => f.write_str("ANY"),
            RecordType::Unknown(code) => write!(f, "TYPE{code}"),
        }
    }
}

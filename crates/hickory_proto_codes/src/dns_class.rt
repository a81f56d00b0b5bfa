//! Classes of records.
ghost use Rattle.std.specs.Prelude.{◌≡◌};
ghost use Rattle.hickory_proto_codes.specs.Codes.{class_code, class_named, class_of};

use crate::code_word::code_after;
use crate::unknown_word::UnknownWord;
use std::fmt;
use std::hash::{Hash, Hasher};
use std::str::FromStr;

/// The class of a record or of a question (RFC 1035, section 3.2.4).
/// Two are equal where their codes are.
#[derive(Clone, Copy, Debug)]
pub enum DNSClass {
    /// The Internet.
    IN,
    /// Chaos.
    CH,
    /// Hesiod.
    HS,
    /// No class (RFC 2136, section 1.3).
    NONE,
    /// Every class, in a question (RFC 1035, section 3.2.5).
    ANY,
    /// Every other code.
    Unknown(u16),
}

impl DNSClass {
    /// The code that stands for it.
    pub const fn code(self) -> u16
        ensures { result ≡ class_code self }
    {
        match self {
            DNSClass::IN => 1,
            DNSClass::CH => 3,
            DNSClass::HS => 4,
            DNSClass::NONE => 254,
            DNSClass::ANY => 255,
            DNSClass::Unknown(code) => code,
        }
    }

    /// The class of a code, by its name where it has one.
    pub fn from_code(code: u16) -> DNSClass
        ensures { result ≡ class_of code }
    {
        DNSClass::from(code)
    }

    /// The class that a text names: by its word, or by `CLASS` and the decimal number of its code.
    pub fn from_word(text: &str) -> Option<DNSClass>
        ensures { result ≡ class_named text.now }
    {
        match text {
            "IN" => Some(DNSClass::IN),
            "CH" => Some(DNSClass::CH),
            "HS" => Some(DNSClass::HS),
            "NONE" => Some(DNSClass::NONE),
            "ANY" => Some(DNSClass::ANY),
            _ => code_after("CLASS", text).map(DNSClass::from),
        }
    }
}

/// The class that a text names, as `from_word` reads it.
impl FromStr for DNSClass {
    type Err = UnknownWord;

    ghost use Rattle.std.specs.Prelude.{◌≡◌};
    ghost use Rattle.std.specs.Result.{result_ok};
    ghost use Rattle.hickory_proto_codes.specs.Codes.{class_named};

    ghost from_str_gives = { λ text r. result_ok r ≡ class_named text };

    fn from_str(text: &str) -> Result<DNSClass, UnknownWord> {
        DNSClass::from_word(text).ok_or(UnknownWord)
    }
}

impl From<u16> for DNSClass {
    ghost use Rattle.std.specs.Prelude.{◌≡◌};
    ghost use Rattle.hickory_proto_codes.specs.Codes.{class_of};

    ghost from_gives = { λ code x. x ≡ class_of code };

    fn from(code: u16) -> DNSClass {
        match code {
            1 => DNSClass::IN,
            3 => DNSClass::CH,
            4 => DNSClass::HS,
            254 => DNSClass::NONE,
            255 => DNSClass::ANY,
            _ => DNSClass::Unknown(code),
        }
    }
}

impl PartialEq for DNSClass {
    ghost use Rattle.std.specs.Prelude.{nat_eq};
    ghost use Rattle.std.specs.Ordering.{on};
    ghost use Rattle.std.specs.Cmp.Rules.{comparing};
    ghost use Rattle.std.proofs.Common.{rules};
    ghost use Rattle.hickory_proto_codes.specs.Codes.{class_code};

    ghost eq = { on class_code nat_eq };

    ghost laws = { Prim.search (comparing, rules) };

    fn eq(&self, other: &DNSClass) -> bool {
        self.code() == other.code()
    }
}

impl Eq for DNSClass {
    ghost use Rattle.std.specs.Cmp.Rules.{comparing};
    ghost use Rattle.std.proofs.Common.{rules};

    ghost laws = { Prim.search (comparing, rules) };
}

impl Hash for DNSClass {
    ghost use Rattle.std.specs.Hash as fed;
    ghost use Rattle.std.specs.Cmp.Rules.{hashing};
    ghost use Rattle.std.proofs.Common.{rules};
    ghost use Rattle.hickory_proto_codes.specs.Codes.{class_code};

    ghost hash_input = { λ x. fed.u16 (class_code x) };

    ghost respects_eq = { Prim.search (hashing, rules) };

    fn hash<H: Hasher>(&self, state: &mut H) {
        self.code().hash(state);
    }
}

impl fmt::Display for DNSClass {
    ghost use Rattle.std.specs.Prelude.{Some};
    ghost use Rattle.hickory_proto_codes.specs.Codes.{class_code, class_text};

    ghost output = { λ x. Some (class_text (class_code x)) };

    fn fmt<W: fmt::Write>(&self, f: &mut fmt::Formatter<W>) -> fmt::Result {
        match DNSClass::from(self.code()) {
            DNSClass::IN => f.write_str("IN"),
            DNSClass::CH => f.write_str("CH"),
            DNSClass::HS => f.write_str("HS"),
            DNSClass::NONE => f.write_str("NONE"),
            DNSClass::ANY => f.write_str("ANY"),
            DNSClass::Unknown(code) => write!(f, "CLASS{code}"),
        }
    }
}

//! Response codes.
ghost use Rattle.std.specs.Prelude.{◌≡◌};
ghost use Rattle.hickory_proto_codes.specs.Codes.{response_code, response_named, response_of};

use crate::code_word::code_after;
use crate::unknown_word::UnknownWord;
use std::fmt;
use std::hash::{Hash, Hasher};
use std::str::FromStr;

/// How a response went (RFC 1035, section 4.1.1).
/// Two are equal where their codes are.
#[derive(Clone, Copy, Debug)]
pub enum ResponseCode {
    /// No error.
    NoError,
    /// The server could not read the question.
    FormErr,
    /// The server failed.
    ServFail,
    /// The name does not exist.
    NXDomain,
    /// The server does not support such questions.
    NotImp,
    /// The server refuses to answer.
    Refused,
    /// Every other code.
    Unknown(u16),
}

impl ResponseCode {
    /// The code that stands for it.
    pub const fn code(self) -> u16
        ensures { result ≡ response_code self }
    {
        match self {
            ResponseCode::NoError => 0,
            ResponseCode::FormErr => 1,
            ResponseCode::ServFail => 2,
            ResponseCode::NXDomain => 3,
            ResponseCode::NotImp => 4,
            ResponseCode::Refused => 5,
            ResponseCode::Unknown(code) => code,
        }
    }

    /// The response code of a code, by its name where it has one.
    pub fn from_code(code: u16) -> ResponseCode
        ensures { result ≡ response_of code }
    {
        ResponseCode::from(code)
    }

    /// The response code that a text names: by its word, or by `CODE` and the decimal number of its code.
    pub fn from_word(text: &str) -> Option<ResponseCode>
        ensures { result ≡ response_named text.now }
    {
        match text {
            "NOERROR" => Some(ResponseCode::NoError),
            "FORMERR" => Some(ResponseCode::FormErr),
            "SERVFAIL" => Some(ResponseCode::ServFail),
            "NXDOMAIN" => Some(ResponseCode::NXDomain),
            "NOTIMP" => Some(ResponseCode::NotImp),
            "REFUSED" => Some(ResponseCode::Refused),
            _ => code_after("CODE", text).map(ResponseCode::from),
        }
    }
}

/// The response code that a text names, as `from_word` reads it.
impl FromStr for ResponseCode {
    type Err = UnknownWord;

    ghost use Rattle.std.specs.Prelude.{◌≡◌};
    ghost use Rattle.std.specs.Result.{result_ok};
    ghost use Rattle.hickory_proto_codes.specs.Codes.{response_named};

    ghost from_str_gives = { λ text r. result_ok r ≡ response_named text };

    fn from_str(text: &str) -> Result<ResponseCode, UnknownWord> {
        ResponseCode::from_word(text).ok_or(UnknownWord)
    }
}

impl From<u16> for ResponseCode {
    ghost use Rattle.std.specs.Prelude.{◌≡◌};
    ghost use Rattle.hickory_proto_codes.specs.Codes.{response_of};

    ghost from_gives = { λ code x. x ≡ response_of code };

    fn from(code: u16) -> ResponseCode {
        match code {
            0 => ResponseCode::NoError,
            1 => ResponseCode::FormErr,
            2 => ResponseCode::ServFail,
            3 => ResponseCode::NXDomain,
            4 => ResponseCode::NotImp,
            5 => ResponseCode::Refused,
            _ => ResponseCode::Unknown(code),
        }
    }
}

impl PartialEq for ResponseCode {
    ghost use Rattle.std.specs.Prelude.{nat_eq};
    ghost use Rattle.std.specs.Ordering.{on};
    ghost use Rattle.std.specs.Cmp.Rules.{comparing};
    ghost use Rattle.std.proofs.Common.{rules};
    ghost use Rattle.hickory_proto_codes.specs.Codes.{response_code};

    ghost eq = { on response_code nat_eq };

    ghost laws = { Prim.search (comparing, rules) };

    fn eq(&self, other: &ResponseCode) -> bool {
        self.code() == other.code()
    }
}

impl Eq for ResponseCode {
    ghost use Rattle.std.specs.Cmp.Rules.{comparing};
    ghost use Rattle.std.proofs.Common.{rules};

    ghost laws = { Prim.search (comparing, rules) };
}

impl Hash for ResponseCode {
    ghost use Rattle.std.specs.Hash as fed;
    ghost use Rattle.std.specs.Cmp.Rules.{hashing};
    ghost use Rattle.std.proofs.Common.{rules};
    ghost use Rattle.hickory_proto_codes.specs.Codes.{response_code};

    ghost hash_input = { λ x. fed.u16 (response_code x) };

    ghost respects_eq = { Prim.search (hashing, rules) };

    fn hash<H: Hasher>(&self, state: &mut H) {
        self.code().hash(state);
    }
}

impl fmt::Display for ResponseCode {
    ghost use Rattle.std.specs.Prelude.{Some};
    ghost use Rattle.hickory_proto_codes.specs.Codes.{response_code, response_text};

    ghost output = { λ x. Some (response_text (response_code x)) };

    fn fmt<W: fmt::Write>(&self, f: &mut fmt::Formatter<W>) -> fmt::Result {
        match ResponseCode::from(self.code()) {
            ResponseCode::NoError => f.write_str("NOERROR"),
            ResponseCode::FormErr => f.write_str("FORMERR"),
            ResponseCode::ServFail => f.write_str("SERVFAIL"),
            ResponseCode::NXDomain => f.write_str("NXDOMAIN"),
            ResponseCode::NotImp => f.write_str("NOTIMP"),
            ResponseCode::Refused => f.write_str("REFUSED"),
            ResponseCode::Unknown(code) => write!(f, "CODE{code}"),
        }
    }
}

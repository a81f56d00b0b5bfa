//! Kinds of messages.
ghost use Rattle.std.specs.Prelude.{◌≡◌};
ghost use Rattle.hickory_proto_codes.specs.Codes.{op_code, op_of};

use std::hash::{Hash, Hasher};

/// The kind of a message (RFC 1035, section 4.1.1).
/// Two are equal where their codes are.
#[derive(Clone, Copy, Debug)]
pub enum OpCode {
    /// A standard query.
    Query,
    /// Every other code.
    Unknown(u8),
}

impl OpCode {
    /// The code that stands for it.
    pub const fn code(self) -> u8
        ensures { result ≡ op_code self }
    {
        match self {
            OpCode::Query => 0,
            OpCode::Unknown(code) => code,
        }
    }

    /// The kind of a code, by its name where it has one.
    pub fn from_code(code: u8) -> OpCode
        ensures { result ≡ op_of code }
    {
        OpCode::from(code)
    }
}

impl From<u8> for OpCode {
    ghost use Rattle.std.specs.Prelude.{◌≡◌};
    ghost use Rattle.hickory_proto_codes.specs.Codes.{op_of};

    ghost from_gives = { λ code x. x ≡ op_of code };

    fn from(code: u8) -> OpCode {
        match code {
            0 => OpCode::Query,
            _ => OpCode::Unknown(code),
        }
    }
}

impl PartialEq for OpCode {
    ghost use Rattle.std.specs.Prelude.{nat_eq};
    ghost use Rattle.std.specs.Ordering.{on};
    ghost use Rattle.std.specs.Cmp.Rules.{comparing};
    ghost use Rattle.std.proofs.Common.{rules};
    ghost use Rattle.hickory_proto_codes.specs.Codes.{op_code};

    ghost eq = { on op_code nat_eq };

    ghost laws = { Prim.search (comparing, rules) };

    fn eq(&self, other: &OpCode) -> bool {
        self.code() == other.code()
    }
}

impl Eq for OpCode {
    ghost use Rattle.std.specs.Cmp.Rules.{comparing};
    ghost use Rattle.std.proofs.Common.{rules};

    ghost laws = { Prim.search (comparing, rules) };
}

impl Hash for OpCode {
    ghost use Rattle.std.specs.Hash as fed;
    ghost use Rattle.std.specs.Cmp.Rules.{hashing};
    ghost use Rattle.std.proofs.Common.{rules};
    ghost use Rattle.hickory_proto_codes.specs.Codes.{op_code};

    ghost hash_input = { λ x. fed.u8 (op_code x) };

    ghost respects_eq = { Prim.search (hashing, rules) };

    fn hash<H: Hasher>(&self, state: &mut H) {
        self.code().hash(state);
    }
}

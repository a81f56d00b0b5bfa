//! The error of reading a code.
use std::error::Error;
use std::fmt;

/// Why a text was not read as a type, a class or a response code: it is the word of none, nor the general form
/// with a number of 16 bits behind it (RFC 3597, section 5).
#[derive(Clone, Copy, Debug, PartialEq, Eq)]
pub struct UnknownWord;

impl fmt::Display for UnknownWord {
    ghost use Rattle.std.specs.Prelude.{Some, codes};

    ghost output = { λ _. Some (codes "unknown word") };

    fn fmt<W: fmt::Write>(&self, f: &mut fmt::Formatter<W>) -> fmt::Result {
        f.write_str("unknown word")
    }
}

impl Error for UnknownWord {}

//! Codes that are written as numbers behind a word.
ghost use Rattle.std.specs.Prelude.{◌≡◌, ◌^◌};
ghost use Rattle.hickory_proto_codes.specs.Codes.{decimal_below, code_after};

use crate::decimal::read_decimal;

// The code that decimal digits write behind the word, with no sign.
pub(crate) fn code_after(word: &str, text: &str) -> Option<u16>
    ensures { result ≡ code_after word.now text.now }
{
    decimal_code(text.strip_prefix(word)?)
}

fn decimal_code(digits: &str) -> Option<u16>
    ensures { result ≡ decimal_below (2 ^ 16) digits.now }
{
    u16::try_from(read_decimal(digits)?).ok()
}

//! Octets as digits and letters (RFC 4648, section 7).
ghost use Rattle.std.specs.Prelude.{◌≡◌, ◌++◌, ◌<◌, IfOk, OnOk};
ghost use Rattle.synthesis.specs.Base32Hex.{base32hex, digit, digits, group};

use std::alloc::{AllocError, Global};

/// The text of some octets: eight digits for each five, and nothing for fewer at the end.
pub fn base32hex(alloc: Global, bytes: &[u8]) -> Result<Vec<u8>, AllocError>
    ensures { IfOk result (λ text. text.items ≡ base32hex bytes.now) }
{
    let mut text = Vec::new(alloc);
    push_groups(&mut text, bytes)?;
    Ok(text)
}

fn push_groups(text: &mut Vec<u8>, bytes: &[u8]) -> Result<(), AllocError>
    ensures { OnOk result (text.new.items ≡ text.old.items ++ base32hex bytes.now) }
{
    let [a, b, c, d, e, rest @ ..] = bytes else {
        return Ok(());
    };
    push_digits(text, 8, group(*a, *b, *c, *d, *e))?;
    push_groups(text, rest)
}

// Five octets as a number.
fn group(a: u8, b: u8, c: u8, d: u8, e: u8) -> u64
    ensures { result ≡ group a b c d e }
{
    256 * (256 * (256 * (256 * u64::from(a) + u64::from(b)) + u64::from(c)) + u64::from(d))
        + u64::from(e)
}

// So many digits of a number, the highest first.
fn push_digits(text: &mut Vec<u8>, count: u8, number: u64) -> Result<(), AllocError>
    ensures { OnOk result (text.new.items ≡ text.old.items ++ digits count number) }
{
    if count == 0 {
        return Ok(());
    }
    push_digits(text, count - 1, number / 32)?;
    text.push(digit((number % 32) as u8))?;
    Ok(())
}

fn digit(number: u8) -> u8
    requires { number < 32 }
    ensures { result ≡ digit number }
{
    if number < 10 {
        b'0' + number
    } else {
        b'a' - 10 + number
    }
}

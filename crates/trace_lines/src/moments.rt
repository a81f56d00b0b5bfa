//! Moments of traces: seconds, and milliseconds behind a dot.
ghost use Rattle.std.specs.Prelude.{◌≡◌, ◌-◌, ◌<◌};
ghost use Rattle.std.specs.Option.{option_map};
ghost use Rattle.trace_lines.specs.Moments.{moment_field, parted, thousandths, written};

use replay_script::words::number32;
use replay_script::{LineFault, ScriptFault};
use trace_judge::Moment;

/// A moment: seconds of 32 bits, and behind a dot, where there is one, one to three digits.
pub fn read_moment(text: &str) -> Result<Moment, LineFault<'_>>
    ensures { result ≡ moment_field text.now }
{
    let Some((seconds, behind)) = parted(text) else {
        let seconds = number32(text)?;
        return Ok(Moment {
            seconds,
            milliseconds: 0,
        });
    };
    let seconds = number32(seconds)?;
    match thousandths(behind.as_bytes()) {
        Some(milliseconds) => Ok(Moment {
            seconds,
            milliseconds,
        }),
        None => Err(LineFault::wrong_field(ScriptFault::BadNumber, text)),
    }
}

// What stands before the first dot, and behind it, where there is one.
fn parted(text: &str) -> Option<(&str, &str)>
    ensures { option_map (λ p. (p.0.now, p.1.now)) result ≡ parted text.now }
{
    text.split_once('.')
}

// The thousandths that one to three digits behind a dot write.
fn thousandths(digits: &[u8]) -> Option<u16>
    ensures { result ≡ thousandths digits.now }
{
    match digits {
        [a] => written(*a, b'0', b'0'),
        [a, b] => written(*a, *b, b'0'),
        [a, b, c] => written(*a, *b, *c),
        _ => None,
    }
}

fn written(a: u8, b: u8, c: u8) -> Option<u16>
    ensures { result ≡ written a b c }
{
    if a.is_ascii_digit() && b.is_ascii_digit() && c.is_ascii_digit() {
        Some(100 * digit(a) + 10 * digit(b) + digit(c))
    } else {
        None
    }
}

fn digit(byte: u8) -> u16
    ensures value { result ≡ byte - 48 }
    ensures bound { result < 256 }
{
    u16::from(byte.saturating_sub(b'0'))
}

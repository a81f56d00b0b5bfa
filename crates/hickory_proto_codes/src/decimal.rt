//! Decimal numbers in texts.
ghost use Rattle.std.specs.Prelude.{◌≡◌, ◌^◌};
ghost use Rattle.hickory_proto_codes.specs.Codes.{decimal_below};

/// The number of 64 bits that decimal digits write: one digit or more, leading zeros taken, and no sign.
pub fn read_decimal(digits: &str) -> Option<u64>
    ensures { result ≡ decimal_below (2 ^ 64) digits.now }
{
    if digits.starts_with('+') {
        return None;
    }
    digits.parse::<u64>().ok()
}

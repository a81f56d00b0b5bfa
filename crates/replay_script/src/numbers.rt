//! Numbers of a script: decimal digits, leading zeros allowed, within a range below that of 64 bits.
ghost use Rattle.std.specs.Prelude.{◌≡◌, ◌^◌};
ghost use Rattle.hickory_proto_core.specs.Codes.{decimal_below};

use hickory_proto_core::read_decimal;

/// A number of 32 bits.
pub fn read_u32(digits: &str) -> Option<u32>
    ensures { result ≡ decimal_below (2 ^ 32) digits.now }
{
    u32::try_from(read_decimal(digits)?).ok()
}

/// A number of 16 bits.
pub fn read_u16(digits: &str) -> Option<u16>
    ensures { result ≡ decimal_below (2 ^ 16) digits.now }
{
    u16::try_from(read_decimal(digits)?).ok()
}

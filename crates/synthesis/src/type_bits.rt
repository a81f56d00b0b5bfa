//! The types of which a name has records, as bits (RFC 4034, section 4.1.2).
ghost use Rattle.std.specs.Prelude.{◌≡◌, ◌<◌};
ghost use Rattle.synthesis.specs.TypeBits.{has_bit, has_type, has_type_in, weight};

// How many windows there are.
const WINDOWS: u16 = 256;

/// Whether the bit of a type is set, by its code.
pub fn has_type(bits: &[u8], code: u16) -> bool
    ensures { result ≡ has_type code bits.now }
{
    has_type_in(WINDOWS, bits, code)
}

// The same in so many windows.
fn has_type_in(windows: u16, bits: &[u8], code: u16) -> bool
    ensures { result ≡ has_type_in windows code bits.now }
{
    if windows == 0 {
        return false;
    }
    let [window, count, rest @ ..] = bits else {
        return false;
    };
    let count = usize::from(*count);
    if rest.len() < count {
        return false;
    }
    if u16::from(*window) == code / 256 {
        return has_bit(&rest[..count], code % 256);
    }
    has_type_in(windows - 1, &rest[count..], code)
}

// Whether a bit of a window is set.
fn has_bit(octets: &[u8], bit: u16) -> bool
    ensures { result ≡ has_bit bit octets.now }
{
    match octets.get(usize::from(bit / 8)) {
        Some(octet) => u16::from(*octet) / weight(bit % 8) % 2 == 1,
        None => false,
    }
}

// What a bit of an octet counts: the first of them is the highest.
fn weight(bit: u16) -> u16
    ensures value { result ≡ weight bit }
    ensures some { 0 < result }
{
    match bit {
        0 => 128,
        1 => 64,
        2 => 32,
        3 => 16,
        4 => 8,
        5 => 4,
        6 => 2,
        _ => 1,
    }
}

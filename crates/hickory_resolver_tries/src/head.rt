//! The header of a message (RFC 1035, section 4.1.1), read where the rest may be no message.
ghost use Rattle.std.specs.Prelude.{◌≡◌, ◌+◌, ◌<◌, length};
ghost use Rattle.hickory_proto_wire.specs.Messages.{bit};
ghost use Rattle.hickory_resolver_tries.specs.Heads.{number_at, head_of};

/// The six numbers of a header.
#[derive(Clone, Copy, Debug)]
pub struct Head {
    /// Tells a message from others.
    pub id: u16,
    /// QR, the kind of message, its flags and its code.
    pub flags: u16,
    /// How many entries each section has.
    pub queries: u16,
    pub answers: u16,
    pub authorities: u16,
    pub additionals: u16,
}

// The number at a position.
fn number_at(octets: &[u8], at: usize) -> u16
    requires { at + 1 < length octets.now }
    ensures { result ≡ number_at octets.now at }
{
    u16::from(octets[at]) * 256 + u16::from(octets[at + 1])
}

/// The header, where the octets are so many.
pub fn head_at(octets: &[u8]) -> Option<Head>
    ensures { result ≡ head_of octets.now }
{
    if octets.len() < 12 {
        return None;
    }
    Some(Head {
        id: number_at(octets, 0),
        flags: number_at(octets, 2),
        queries: number_at(octets, 4),
        answers: number_at(octets, 6),
        authorities: number_at(octets, 8),
        additionals: number_at(octets, 10),
    })
}

// Whether the bit of this weight is set.
pub(crate) fn bit(weight: u16, number: u16) -> bool
    requires { 0 < weight }
    ensures { result ≡ bit weight number }
{
    number / weight % 2 == 1
}

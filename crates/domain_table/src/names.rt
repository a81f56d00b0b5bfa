//! Names as octets.
ghost use Rattle.std.specs.Prelude.{◌≡◌, ◌<◌, ◌≤◌, drop, length, take};
ghost use Rattle.domain_table.specs.Names.{ends_name, is_short, lower_name, next_place};

/// How many octets a name has at the most (RFC 1035, section 2.3.4).
pub const LONGEST_NAME: usize = 255;

/// How many octets a label has at the most (RFC 1035, section 2.3.4).
pub const LONGEST_LABEL: u8 = 63;

/// Whether octets are no more than a name may have.
pub(crate) fn is_short(octets: &[u8]) -> bool
    ensures { result ≡ is_short octets.now }
{
    octets.len() <= LONGEST_NAME
}

// Whether nothing stands behind an octet at which a label may begin.
fn ends_name(first: u8) -> bool
    ensures { result ≡ ends_name first }
{
    first == 0 || LONGEST_LABEL < first
}

/// Where the label behind the one at a place begins, or the end of the name, where none does.
pub(crate) fn next_place(name: &[u8], place: usize) -> usize
    requires { place < length name.now }
    ensures { result ≡ next_place name.now place }
{
    let first = name[place];
    if ends_name(first) {
        name.len()
    } else {
        place + 1 + first as usize
    }
}

/// What of a name begins at a place.
pub(crate) fn suffix(name: &[u8], place: usize) -> &[u8]
    requires { place ≤ length name.now }
    ensures { result.now ≡ drop place name.now }
{
    &name[place..]
}

/// A room for the longest name that begins with a name in lower case.
pub(crate) fn lower_room(name: &[u8]) -> [u8; LONGEST_NAME]
    requires { length name.now ≤ LONGEST_NAME }
    ensures { take (length name.now) result ≡ lower_name name.now }
{
    let mut room = [0; LONGEST_NAME];
    room[..name.len()].copy_from_slice(name);
    room.make_ascii_lowercase();
    room
}

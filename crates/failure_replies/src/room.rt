//! Octets in a room of a caller.
ghost use Rattle.std.specs.Prelude.{◌≡◌, ◌≤◌, ◌+◌, ◌++◌, length, take, drop};
ghost use Rattle.std.specs.Option.{option_map};
ghost use Rattle.failure_replies.specs.Rooms.{over, put_in, within};

// Writes over a part of a room.
fn put_at(room: &mut [u8], at: usize, octets: &[u8])
    requires { at + length octets.now ≤ length room.old }
    ensures { room.new ≡ over room.old at octets.now }
{
    room[at..at + octets.len()].copy_from_slice(octets);
}

// Writes three parts to the front of a room.
fn put_parts(room: &mut [u8], head: &[u8], question: &[u8], opt: &[u8])
    requires { length head.now + length question.now + length opt.now ≤ length room.old }
    ensures { room.new ≡ (head.now ++ question.now ++ opt.now)
        ++ drop (length (head.now ++ question.now ++ opt.now)) room.old }
{
    put_at(room, 0, head);
    put_at(room, head.len(), question);
    put_at(room, head.len() + question.len(), opt);
}

// Writes three parts to the front of a room, where it is long enough for them, and answers how many octets they are.
pub(crate) fn put_if_fits(
    room: &mut [u8],
    head: &[u8; 12],
    question: &[u8],
    opt: &[u8],
) -> Option<usize>
    requires { length opt.now ≤ 17 }
    ensures length { result ≡ option_map length (within (length room.old) (head.now ++ question.now ++ opt.now)) }
    ensures room { room.new ≡ put_in room.old (within (length room.old) (head.now ++ question.now ++ opt.now)) }
{
    let length = 12 + question.len() + opt.len();
    if room.len() < length {
        return None;
    }
    put_parts(room, head, question, opt);
    Some(length)
}

//! Where names, questions and records end in the octets of a message (RFC 1035, sections 3.1 and 4.1).
ghost use Rattle.std.specs.Prelude.{◌≡◌, ◌+◌, ◌≤◌, ◌<◌, length, get_or, IfSome};
ghost use Rattle.hickory_resolver_tries.specs.Heads.{number_at};
ghost use Rattle.client_queries.specs.Places.{name_end, behind_codes, question_end, place_behind, record_place};

// No name has more than 127 labels, and a root.
const MOST_STEPS: u8 = 128;

// Where a record stands: whether its owner is the root, where its fields begin behind that, and where its data end.
#[derive(Clone, Copy, Debug)]
pub(crate) struct RecordPlace {
    pub(crate) of_root: bool,
    pub(crate) fields: usize,
    pub(crate) end: usize,
}

// The number at a position, the high octet first.
pub(crate) fn number_at(octets: &[u8], at: usize) -> u16
    requires { at + 1 < length octets.now }
    ensures { result ≡ number_at octets.now at }
{
    u16::from(octets[at]) * 256 + u16::from(octets[at + 1])
}

// The position behind a name, in so many steps.
#[tactic(auto, unfolding(crate::specs::Places::name_end))]
fn name_end(pointers: bool, steps: u8, octets: &[u8], at: usize) -> Option<usize>
    ensures end { result ≡ name_end pointers steps octets.now at }
    ensures behind { IfSome result (λ end. at < end) }
{
    if steps == 0 {
        return None;
    }
    if octets.len() <= at {
        return None;
    }
    let first = octets[at];
    if first == 0 {
        return Some(at + 1);
    }
    if first < 64 {
        return name_end(pointers, steps - 1, octets, at + 1 + usize::from(first));
    }
    if pointers && 191 < first {
        return Some(at + 2);
    }
    None
}

fn behind_codes(octets: &[u8], at: usize) -> Option<usize>
    requires { 12 ≤ at }
    ensures end { result ≡ behind_codes octets.now at }
    ensures within { IfSome result (λ end. (16 ≤ end) × (end ≤ length octets.now)) }
{
    if at <= 267 && at + 4 <= octets.len() {
        Some(at + 4)
    } else {
        None
    }
}

// The position behind the question, where its name is spelled out.
pub(crate) fn question_end(octets: &[u8]) -> Option<usize>
    ensures end { result ≡ question_end octets.now }
    ensures within { IfSome result (λ end. (16 ≤ end) × (end ≤ length octets.now)) }
{
    let at = name_end(false, MOST_STEPS, octets, 12)?;
    behind_codes(octets, at)
}

fn place_behind(of_root: bool, octets: &[u8], at: usize) -> Option<RecordPlace>
    ensures place { result ≡ place_behind of_root octets.now at }
    ensures within { IfSome result (λ r. r.end ≤ length octets.now) }
    ensures order { IfSome result (λ r. r.fields + 10 ≤ r.end) }
{
    if octets.len() < 10 || octets.len() - 10 < at {
        return None;
    }
    let end = at + 10 + usize::from(number_at(octets, at + 8));
    if octets.len() < end {
        return None;
    }
    Some(RecordPlace {
        of_root,
        fields: at,
        end,
    })
}

// Where the record from there on stands.
pub(crate) fn record_place(octets: &[u8], at: usize) -> Option<RecordPlace>
    ensures place { result ≡ record_place octets.now at }
    ensures within { IfSome result (λ r. r.end ≤ length octets.now) }
    ensures order { IfSome result (λ r. r.fields + 10 ≤ r.end) }
{
    let of_root = octets.get(at).copied().unwrap_or(0) == 0;
    let behind = name_end(true, MOST_STEPS, octets, at)?;
    place_behind(of_root, octets, behind)
}

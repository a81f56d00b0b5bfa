//! By what a cache finds what is stored for a question: the octets of the question, its name compared without case.
ghost use Rattle.std.specs.Prelude.{◌≡◌, ◌-◌, length, take, drop, nat_eq};
ghost use Rattle.std.specs.Cmp.Lexicographic.{pointwise};
ghost use Rattle.std.specs.List.{fold};
ghost use Rattle.hickory_proto_core.specs.Name.{lower_label};
ghost use Rattle.stored_replies.specs.Key.{name_part, codes_part, is_same_question, octet_by_octet, hash_input};

use std::hash::Hasher;

fn name_part(question: &[u8]) -> &[u8]
    ensures { result.now ≡ name_part question.now }
{
    &question[..question.len().saturating_sub(4)]
}

fn codes_part(question: &[u8]) -> &[u8]
    ensures { result.now ≡ codes_part question.now }
{
    &question[question.len().saturating_sub(4)..]
}

fn is_same_name(one: &[u8], other: &[u8]) -> bool
    ensures { result ≡ pointwise nat_eq (lower_label one.now) (lower_label other.now) }
{
    one.eq_ignore_ascii_case(other)
}

fn are_same_codes(one: &[u8], other: &[u8]) -> bool
    ensures { result ≡ pointwise nat_eq one.now other.now }
{
    one == other
}

/// Whether two questions, as octets, are one to a cache: names are equal without case, and type and class octet for
/// octet. Takes no memory.
pub fn is_same_question(one: &[u8], other: &[u8]) -> bool
    ensures { result ≡ is_same_question one.now other.now }
{
    is_same_name(name_part(one), name_part(other))
        && are_same_codes(codes_part(one), codes_part(other))
}

// Feeds a hasher with octets, letters in lower case.
fn hash_lower<H: Hasher>(octets: &[u8], hasher: &mut H)
    ensures { hasher.new ≡ fold H.write hasher.old (octet_by_octet (lower_label octets.now)) }
{
    for octet in octets {
        hasher.write(&[octet.to_ascii_lowercase()]);
    }
}

fn hash_octets<H: Hasher>(octets: &[u8], hasher: &mut H)
    ensures { hasher.new ≡ fold H.write hasher.old (octet_by_octet octets.now) }
{
    for octet in octets {
        hasher.write(&[*octet]);
    }
}

/// Feeds a hasher with a question, as octets: the same for questions that are one to a cache. Takes no memory.
pub fn hash_question<H: Hasher>(question: &[u8], hasher: &mut H)
    ensures { hasher.new ≡ fold H.write hasher.old (hash_input question.now) }
{
    hash_lower(name_part(question), hasher);
    hash_octets(codes_part(question), hasher);
}

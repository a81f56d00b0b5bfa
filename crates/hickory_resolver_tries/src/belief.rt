//! Which octets are believed as a reply to a try (RFC 5452, section 9.1).
ghost use Rattle.std.specs.Prelude.{◌≡◌, ◌+◌, ◌<◌, ◌&&◌, true, false, length, nat_eq, None, Some, MatchOption, if◌then◌else◌};
ghost use Rattle.std.specs.Cmp.Lexicographic.{pointwise};
ghost use Rattle.hickory_proto_core.specs.Name.{lower_label};
ghost use Rattle.hickory_resolver_tries.specs.Letters.{varied_octets};
ghost use Rattle.hickory_resolver_tries.specs.Belief.{is_reply, has_one_question, has_nothing, knows_no_opt, is_bare_refusal, has_question, letters_match, has_letters, name_part, asked_name, asked_codes, refuses_opt, belief_with, belief_of};

use crate::head::{Head, bit, head_at};
use crate::pool_question::PoolQuestion;
use crate::try_message::{TryForm, TryMessage, next_place, varied_octet};

/// What octets are to a try that waits where they came.
#[derive(Clone, Copy, Debug, PartialEq, Eq)]
pub enum Belief {
    /// A reply to it.
    Believed,
    /// A reply to it but for letters that were varied.
    OtherLetters,
    /// A header alone that says that OPT is not known.
    OptRefused,
    /// None of these: it changes nothing.
    NotBelieved,
}

/// What octets are to a try of this form, by their header and their question alone, so that the rest may be no message.
/// A question whose name goes on with a pointer is none that was sent.
pub fn judge(message: &TryMessage, form: &TryForm, octets: &[u8]) -> Belief
    ensures { result ≡ belief_of message.now form.now octets.now }
{
    match head_at(octets) {
        Some(head) => judge_with(message, form, octets, &head),
        None => Belief::NotBelieved,
    }
}

fn judge_with(message: &TryMessage, form: &TryForm, octets: &[u8], head: &Head) -> Belief
    ensures { result ≡ belief_with message.now form.now octets.now (Some head.now) }
{
    match has_asked_letters(message, form, octets, head) {
        Some(true) => Belief::Believed,
        Some(false) => Belief::OtherLetters,
        None => judge_refusal(message, form, octets, head),
    }
}

// What octets are that have not the question.
fn judge_refusal(message: &TryMessage, form: &TryForm, octets: &[u8], head: &Head) -> Belief
    ensures { result ≡ (if refuses_opt message.now form.now (Some head.now) octets.now
        then Belief.OptRefused else Belief.NotBelieved) }
{
    if refuses_opt(message, form, octets, head) {
        Belief::OptRefused
    } else {
        Belief::NotBelieved
    }
}

// ---- the header

// Whether it is that of a response to a query, of this number.
fn is_reply(id: u16, head: &Head) -> bool
    ensures { result ≡ is_reply id head.now }
{
    bit(32768, head.flags) && head.flags / 2048 % 16 == 0 && head.id == id
}

fn has_one_question(id: u16, head: &Head) -> bool
    ensures { result ≡ has_one_question id (Some head.now) }
{
    is_reply(id, head) && head.queries == 1
}

fn has_nothing(head: &Head) -> bool
    ensures { result ≡ has_nothing head.now }
{
    head.queries == 0 && head.answers == 0 && head.authorities == 0 && head.additionals == 0
}

// Whether a code is one of those that do not know OPT: FORMERR and NOTIMP.
pub(crate) fn knows_no_opt(code: u16) -> bool
    ensures { result ≡ knows_no_opt code }
{
    code == 1 || code == 4
}

fn is_bare_refusal(id: u16, head: &Head) -> bool
    ensures { result ≡ is_bare_refusal id (Some head.now) }
{
    is_reply(id, head) && has_nothing(head) && knows_no_opt(head.flags % 16)
}

fn refuses_opt(message: &TryMessage, form: &TryForm, octets: &[u8], head: &Head) -> bool
    ensures { result ≡ refuses_opt message.now form.now (Some head.now) octets.now }
{
    is_bare_refusal(form.id, head)
        && octets.len() == 12
        && message.sends_opt(form)
        && !message.question().is_dnssec_ok()
}

// ---- the question

// Whether the octets are the same.
fn is_same(a: &[u8], b: &[u8]) -> bool
    ensures { result ≡ pointwise nat_eq a.now b.now }
{
    a == b
}

// Whether they are the same without case.
fn is_same_name(a: &[u8], b: &[u8]) -> bool
    ensures { result ≡ pointwise nat_eq (lower_label a.now) (lower_label b.now) }
{
    a.eq_ignore_ascii_case(b)
}

// Whether the octets are the type and the class of a question.
fn has_codes(octets: &[u8], question: &PoolQuestion) -> bool
    ensures { result ≡ pointwise nat_eq octets.now (asked_codes question.now.query) }
{
    let query_type = question.query.query_type.code();
    let query_class = question.query.query_class.code();
    let codes = [
        (query_type / 256) as u8,
        (query_type % 256) as u8,
        (query_class / 256) as u8,
        (query_class % 256) as u8,
    ];
    is_same(octets, &codes)
}

// The octets of the name in the question, where it is the one that was asked.
fn asked_name<'a>(name: &[u8], question: &PoolQuestion, octets: &'a [u8]) -> Option<&'a [u8]>
    ensures { MatchOption result (has_question name.now (asked_codes question.now.query) octets.now ≡ false)
        (λ own. (has_question name.now (asked_codes question.now.query) octets.now ≡ true)
        × (own.now ≡ name_part name.now octets.now) × (length own.now ≡ length name.now)) }
{
    if octets.len() < 16 || octets.len() - 16 < name.len() {
        return None;
    }
    let (_, behind) = octets.split_at(12);
    let (own, rest) = behind.split_at(name.len());
    let (codes, _) = rest.split_at(4);
    if !is_same_name(own, name) {
        return None;
    }
    if !has_codes(codes, question) {
        return None;
    }
    Some(own)
}

// Whether the octets of a name are those that were sent.
fn is_as_sent(own: &[u8], name: &[u8], bits: &[u8]) -> bool
    requires { length own.now ≡ length name.now }
    ensures { result ≡ pointwise nat_eq own.now (varied_octets bits.now 0 name.now) }
{
    let mut place = 0;
    for i in 0..name.len() {
        if own[i] != varied_octet(bits, place, name[i]) {
            return false;
        }
        place = next_place(place, name[i]);
    }
    true
}

// Whether the letters of a name are those that were sent.
fn has_letters(own: &[u8], name: &[u8], letters: &Option<[u8; 32]>) -> bool
    requires { length own.now ≡ length name.now }
    ensures { result ≡ letters_match letters.now own.now name.now }
{
    match letters {
        None => true,
        Some(bits) => is_as_sent(own, name, bits),
    }
}

// Whether the letters are those that were sent, where the header and the question are those of a reply.
fn has_asked_letters(
    message: &TryMessage,
    form: &TryForm,
    octets: &[u8],
    head: &Head,
) -> Option<bool>
    ensures { result ≡ (if has_one_question form.now.id (Some head.now)
        && has_question (asked_name message.now.query) (asked_codes message.now.query) octets.now
        then Some (has_letters form.now.letters (asked_name message.now.query) octets.now) else None) }
{
    if !has_one_question(form.id, head) {
        return None;
    }
    let name = message.name();
    let own = asked_name(name, message.question(), octets)?;
    Some(has_letters(own, name, &form.letters))
}

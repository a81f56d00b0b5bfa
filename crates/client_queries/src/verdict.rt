//! What is to be done with a query.
ghost use Rattle.std.specs.Prelude.{◌≡◌, ◌≤◌, ◌-◌, length, take, drop, IfSome, nat_eq};
ghost use Rattle.std.specs.Cmp.Lexicographic.{pointwise};
ghost use Rattle.hickory_proto_core.specs.Name.{lower_label};
ghost use Rattle.client_queries.specs.Queries.{type_before, class_before, question_in, is_transfer, is_no_type, is_nxname, is_statistics_name, asks_statistics, is_later, verdict_of_codes, verdict_of_extras, verdict_of_question, is_other_kind, verdict_of};

use crate::places::{number_at, question_end};
use crate::query::{ClientEdns, Extras, Refusal, Verdict};
use hickory_resolver_tries::head::Head;

// The type of the question that ends there.
fn type_before(end: usize, octets: &[u8]) -> u16
    requires least { 16 ≤ end }
    requires within { end ≤ length octets.now }
    ensures { result ≡ type_before end octets.now }
{
    number_at(octets, end - 4)
}

fn class_before(end: usize, octets: &[u8]) -> u16
    requires least { 16 ≤ end }
    requires within { end ≤ length octets.now }
    ensures { result ≡ class_before end octets.now }
{
    number_at(octets, end - 2)
}

// The position behind the question, where there is one and it can be read.
pub(crate) fn question_in(octets: &[u8], head: &Head) -> Option<usize>
    ensures end { result ≡ question_in octets.now head.now }
    ensures within { IfSome result (λ end. (16 ≤ end) × (end ≤ length octets.now)) }
{
    if head.queries == 1 {
        question_end(octets)
    } else {
        None
    }
}

fn is_transfer(code: u16) -> bool
    ensures { result ≡ is_transfer code }
{
    code == 251 || code == 252
}

fn is_no_type(code: u16) -> bool
    ensures { result ≡ is_no_type code }
{
    code == 0 || code == 41 || (249 <= code && code <= 254)
}

fn is_nxname(code: u16) -> bool
    ensures { result ≡ is_nxname code }
{
    code == 128
}

fn is_statistics_name(name: &[u8]) -> bool
    ensures { result ≡ is_statistics_name name.now }
{
    name.eq_ignore_ascii_case(b"\x0astatistics\x08yimarotu\x00")
}

// The octets of the name of the question.
fn name_before(end: usize, octets: &[u8]) -> &[u8]
    requires least { 16 ≤ end }
    requires within { end ≤ length octets.now }
    ensures { result.now ≡ take (end - 16) (drop 12 octets.now) }
{
    &octets[12..end - 4]
}

fn asks_statistics(end: usize, octets: &[u8]) -> bool
    requires least { 16 ≤ end }
    requires within { end ≤ length octets.now }
    ensures { result ≡ asks_statistics end octets.now }
{
    class_before(end, octets) == 3
        && type_before(end, octets) == 16
        && is_statistics_name(name_before(end, octets))
}

fn is_later(edns: Option<ClientEdns>) -> bool
    ensures { result ≡ is_later edns }
{
    match edns {
        Some(edns) => 0 < edns.version,
        None => false,
    }
}

fn verdict_of_codes(end: usize, octets: &[u8]) -> Verdict
    requires least { 16 ≤ end }
    requires within { end ≤ length octets.now }
    ensures { result ≡ verdict_of_codes end octets.now }
{
    if asks_statistics(end, octets) {
        return Verdict::Statistics;
    }
    let code = type_before(end, octets);
    if is_nxname(code) {
        return Verdict::Refused(Refusal::FormErr);
    }
    if class_before(end, octets) != 1 || is_no_type(code) {
        return Verdict::Refused(Refusal::Refused);
    }
    if code == 255 {
        Verdict::Any
    } else {
        Verdict::Asked
    }
}

fn verdict_of_extras(end: usize, octets: &[u8], extras: &Extras) -> Verdict
    requires least { 16 ≤ end }
    requires within { end ≤ length octets.now }
    ensures { result ≡ verdict_of_extras end octets.now extras.now }
{
    if extras.is_signed {
        return Verdict::Refused(Refusal::NotAuth);
    }
    if is_later(extras.edns) {
        return Verdict::Refused(Refusal::BadVers);
    }
    verdict_of_codes(end, octets)
}

fn verdict_of_question(octets: &[u8], extras: Option<Extras>, end: usize) -> Verdict
    requires least { 16 ≤ end }
    requires within { end ≤ length octets.now }
    ensures { result ≡ verdict_of_question octets.now extras end }
{
    if is_transfer(type_before(end, octets)) {
        return Verdict::Refused(Refusal::NotImp);
    }
    match extras {
        Some(extras) => verdict_of_extras(end, octets, &extras),
        None => Verdict::Refused(Refusal::FormErr),
    }
}

// Whether it is another kind of message than a query.
fn is_other_kind(head: &Head) -> bool
    ensures { result ≡ is_other_kind head.now }
{
    head.flags / 2048 % 16 != 0
}

// What is to be done with a query whose question ends there and that has these records behind it.
pub(crate) fn verdict_of(
    octets: &[u8],
    head: &Head,
    question_end: Option<usize>,
    extras: Option<Extras>,
) -> Verdict
    requires { IfSome question_end (λ end. (16 ≤ end) × (end ≤ length octets.now)) }
    ensures { result ≡ verdict_of octets.now head.now question_end extras }
{
    if is_other_kind(head) {
        return Verdict::Refused(Refusal::NotImp);
    }
    match question_end {
        Some(end) => verdict_of_question(octets, extras, end),
        None => Verdict::Refused(Refusal::FormErr),
    }
}

//! The words behind `options`.
ghost use Rattle.std.specs.Prelude.{◌≡◌, IsTrue, min, length};
ghost use Rattle.std.specs.Char.{is_ascii_digit};
ghost use Rattle.std.specs.List.{list_all, take_while};
ghost use Rattle.std.specs.Str.Parse.{digits_value};
ghost use Rattle.resolv_conf.specs.OptionWord.{attempts_named, flag_named, ndots_named, number_within, option_of, timeout_named};

use crate::passed_over::Reason;

/// What a word behind `options` says.
#[derive(Clone, Copy, Debug, PartialEq, Eq)]
pub enum OptionWord {
    /// `ndots:`, at most 15.
    Ndots(u8),
    /// `timeout:`, in seconds, at most 30.
    Timeout(u8),
    /// `attempts:`, in rounds, at most 5.
    Attempts(u8),
    /// `rotate`.
    Rotate,
    /// `use-vc`.
    UseVc,
    /// `edns0`.
    Edns0,
    /// `no-aaaa`.
    NoAaaa,
    /// `trust-ad`.
    TrustAd,
    /// `single-request` and `single-request-reopen`: which families are asked, and when, is not said by this file.
    SingleRequest,
    /// It is passed over.
    PassedOver(Reason),
}

/// What a word behind `options` says: it begins with the name of an option, and a number stands right behind a colon.
#[tactic(auto, using(std::proofs::lemmas::Grind::common_steps), unfolding(crate::specs::OptionWord::option_of))]
pub fn option_of(word: &[u8]) -> OptionWord
    ensures { result ≡ option_of word.now }
{
    if let Some(text) = word.strip_prefix(b"ndots:".as_slice()) {
        return ndots(text);
    }
    if let Some(text) = word.strip_prefix(b"timeout:".as_slice()) {
        return timeout(text);
    }
    if let Some(text) = word.strip_prefix(b"attempts:".as_slice()) {
        return attempts(text);
    }
    flag(word)
}

fn ndots(text: &[u8]) -> OptionWord
    ensures { result ≡ ndots_named (number_within 15 text.now) }
{
    match number_within(15, text) {
        Some(dots) => OptionWord::Ndots(dots),
        None => OptionWord::PassedOver(Reason::NotANumber),
    }
}

fn timeout(text: &[u8]) -> OptionWord
    ensures { result ≡ timeout_named (number_within 30 text.now) }
{
    match number_within(30, text) {
        Some(seconds) => OptionWord::Timeout(seconds),
        None => OptionWord::PassedOver(Reason::NotANumber),
    }
}

fn attempts(text: &[u8]) -> OptionWord
    ensures { result ≡ attempts_named (number_within 5 text.now) }
{
    match number_within(5, text) {
        Some(rounds) => OptionWord::Attempts(rounds),
        None => OptionWord::PassedOver(Reason::NotANumber),
    }
}

// What a word says that has no number.
#[tactic(auto, using(std::proofs::lemmas::Grind::common_steps), unfolding(crate::specs::OptionWord::flag_named))]
fn flag(word: &[u8]) -> OptionWord
    ensures { result ≡ flag_named word.now }
{
    if word.starts_with(b"rotate".as_slice()) {
        return OptionWord::Rotate;
    }
    if word.starts_with(b"use-vc".as_slice()) {
        return OptionWord::UseVc;
    }
    if word.starts_with(b"edns0".as_slice()) {
        return OptionWord::Edns0;
    }
    if word.starts_with(b"no-aaaa".as_slice()) {
        return OptionWord::NoAaaa;
    }
    if word.starts_with(b"trust-ad".as_slice()) {
        return OptionWord::TrustAd;
    }
    if word.starts_with(b"single-request".as_slice()) {
        return OptionWord::SingleRequest;
    }
    OptionWord::PassedOver(Reason::UnknownOption)
}

// The number of the digits that the text begins with, or the limit where it is larger; none without digits.
#[tactic(auto, using(std::proofs::lemmas::Grind::common_steps), unfolding(crate::specs::OptionWord::number_within))]
fn number_within(limit: u8, text: &[u8]) -> Option<u8>
    ensures { result ≡ number_within limit text.now }
{
    let digits = leading_digits(text);
    if digits.is_empty() {
        return None;
    }
    Some(value_within(limit, digits))
}

fn leading_digits(text: &[u8]) -> &[u8]
    ensures digits { result.now ≡ take_while is_ascii_digit text.now }
    ensures all { IsTrue (list_all is_ascii_digit result.now) }
{
    &text[..digit_len(text)]
}

// How many digits the text begins with.
fn digit_len(text: &[u8]) -> usize
    ensures { result ≡ length (take_while is_ascii_digit text.now) }
{
    text.iter()
        .copied()
        .take_while(|b| b.is_ascii_digit())
        .count()
}

// The number of these digits, or the limit where it is larger.
fn value_within(limit: u8, digits: &[u8]) -> u8
    requires { IsTrue (list_all is_ascii_digit digits.now) }
    ensures { result ≡ min limit (digits_value 10 digits.now) }
{
    let mut value = 0;
    for digit in digits {
        let next = u16::from(value) * 10 + u16::from(*digit - b'0');
        value = next.min(u16::from(limit)) as u8;
    }
    value
}

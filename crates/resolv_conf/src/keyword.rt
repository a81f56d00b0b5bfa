//! The keyword of a line.
ghost use Rattle.std.specs.Prelude.{◌≡◌};
ghost use Rattle.std.specs.List.{list_all};
ghost use Rattle.resolv_conf.specs.Keyword.{is_comment, keyword_named, keyword_of, says_nothing};
ghost use Rattle.resolv_conf.specs.Text.{is_blank};

use crate::text::{is_blank, split_word};

/// What a line is about.
#[derive(Clone, Copy, Debug, PartialEq, Eq)]
pub enum Keyword {
    /// `nameserver`.
    NameServer,
    /// `domain`.
    Domain,
    /// `search`.
    Search,
    /// `options`.
    Options,
    /// A keyword that is not read.
    Other,
    /// Nothing: the line is blank, or a comment.
    Nothing,
}

/// What a line is about. Its keyword begins in the first column, and has its letters in lower case.
#[tactic(auto, using(std::proofs::lemmas::Grind::common_steps), unfolding(crate::specs::Keyword::keyword_of))]
pub fn keyword_of(line: &[u8]) -> Keyword
    ensures { result ≡ keyword_of line.now }
{
    if says_nothing(line) {
        return Keyword::Nothing;
    }
    let (word, _) = split_word(line);
    keyword_named(word)
}

// Whether a line is a comment or blank.
fn says_nothing(line: &[u8]) -> bool
    ensures { result ≡ says_nothing line.now }
{
    is_comment(line) || is_blank_line(line)
}

fn is_blank_line(line: &[u8]) -> bool
    ensures { result ≡ list_all is_blank line.now }
{
    line.iter().all(|b| is_blank(*b))
}

// Whether `#` or `;` is in the first column.
fn is_comment(line: &[u8]) -> bool
    ensures { result ≡ is_comment line.now }
{
    match line {
        [first, ..] => *first == b'#' || *first == b';',
        [] => false,
    }
}

// The keyword that a word is.
#[tactic(auto, using(std::proofs::lemmas::Grind::common_steps), unfolding(crate::specs::Keyword::keyword_named))]
fn keyword_named(word: &[u8]) -> Keyword
    ensures { result ≡ keyword_named word.now }
{
    if word == b"nameserver".as_slice() {
        return Keyword::NameServer;
    }
    if word == b"domain".as_slice() {
        return Keyword::Domain;
    }
    if word == b"search".as_slice() {
        return Keyword::Search;
    }
    if word == b"options".as_slice() {
        return Keyword::Options;
    }
    Keyword::Other
}

//! The lines of a file, and the words of a line.
ghost use Rattle.std.specs.Prelude.{◌≡◌, ◌==◌, ◌∷◌, None, Some, MatchOption, length, nat_lt, position};
ghost use Rattle.std.specs.List.{take_while};
ghost use Rattle.resolv_conf.specs.Text.{cut, first_word, is_blank, is_plain, lines_left, lines_of, text_of, unindented, behind_word, words};

use memchr::memchr;

/// The lines, each up to its first NUL.
#[derive(Drop)]
pub struct Lines<'a> {
    /// The octets whose lines are still to come, if any are.
    pub rest: Option<&'a [u8]>,
}

impl<'a> Lines<'a> {
    ghost use Rattle.resolv_conf.specs.Text.{lines_left, lines_of};

    /// The lines of these octets.
    pub fn new(octets: &'a [u8]) -> Lines<'a>
        ensures { lines_left result.rest ≡ lines_of octets.now }
    {
        Lines { rest: Some(octets) }
    }
}

impl<'a> Iterator for Lines<'a> {
    ghost use Rattle.std.specs.Iterator.{YieldsFirstRef, item_count};
    ghost use Rattle.resolv_conf.specs.Text.{lines_left};

    type Item = &'a [u8];

    ghost next_gives = { YieldsFirstRef (λ s. lines_left s.rest) };

    ghost remaining = { item_count (λ s. lines_left s.rest) };

    fn next(&mut self) -> Option<&'a [u8]> {
        match self.rest {
            None => None,
            Some(octets) => {
                let (line, rest) = split_line(octets);
                self.rest = rest;
                Some(line)
            }
        }
    }
}

// The first line, and what stands behind its LF where it has one.
fn split_line(octets: &[u8]) -> (&[u8], Option<&[u8]>)
    ensures { lines_of octets.now ≡ result.0.now ∷ lines_left result.1 }
{
    match cut_at(b'\n', octets) {
        Some((line, rest)) => (text_of(line), Some(rest)),
        None => (text_of(octets), None),
    }
}

// What stands before the first NUL, where a text of C ends.
fn text_of(line: &[u8]) -> &[u8]
    ensures { result.now ≡ text_of line.now }
{
    match cut_at(0, line) {
        Some((text, _)) => text,
        None => line,
    }
}

/// What stands before the first such octet, and what stands behind it; none where there is no such octet.
pub fn cut_at(octet: u8, octets: &[u8]) -> Option<(&[u8], &[u8])>
    ensures { MatchOption result (cut octet octets.now ≡ None)
        (λ parts. cut octet octets.now ≡ Some (parts.0.now, parts.1.now)) }
{
    match octet_index(octet, octets) {
        Some(end) => Some((&octets[..end], &octets[end + 1..])),
        None => None,
    }
}

// The place of the first such octet.
fn octet_index(octet: u8, octets: &[u8]) -> Option<usize>
    ensures { result ≡ position (λ b. b == octet) octets.now }
{
    memchr(octet, octets)
}

/// The words of a line: what stands between spaces and TABs.
#[derive(Drop)]
pub struct Words<'a> {
    /// The octets whose words are still to come.
    pub rest: &'a [u8],
}

impl<'a> Words<'a> {
    ghost use Rattle.resolv_conf.specs.Text.{words};

    /// The words of these octets.
    pub fn new(octets: &'a [u8]) -> Words<'a>
        ensures { words result.rest.now ≡ words octets.now }
    {
        Words { rest: octets }
    }
}

impl<'a> Iterator for Words<'a> {
    ghost use Rattle.std.specs.Iterator.{YieldsFirstRef, item_count};
    ghost use Rattle.resolv_conf.specs.Text.{words};

    type Item = &'a [u8];

    ghost next_gives = { YieldsFirstRef (λ s. words s.rest.now) };

    ghost remaining = { item_count (λ s. words s.rest.now) };

    fn next(&mut self) -> Option<&'a [u8]> {
        let (word, rest) = split_word(without_blanks(self.rest));
        self.rest = rest;
        if word.is_empty() { None } else { Some(word) }
    }
}

/// Whether there is a word.
pub fn has_word(octets: &[u8]) -> bool
    ensures { result ≡ nat_lt 0 (length (words octets.now)) }
{
    Words::new(octets).next().is_some()
}

// The octets without the blanks that they begin with.
fn without_blanks(octets: &[u8]) -> &[u8]
    ensures { result.now ≡ unindented octets.now }
{
    &octets[blank_len(octets)..]
}

// How many blanks the octets begin with.
fn blank_len(octets: &[u8]) -> usize
    ensures { result ≡ length (take_while is_blank octets.now) }
{
    octets.iter().copied().take_while(|b| is_blank(*b)).count()
}

/// What stands before the first blank, and the rest.
pub fn split_word(octets: &[u8]) -> (&[u8], &[u8])
    ensures word { result.0.now ≡ first_word octets.now }
    ensures rest { result.1.now ≡ behind_word octets.now }
{
    octets.split_at(word_len(octets))
}

// How many octets stand before the first blank.
fn word_len(octets: &[u8]) -> usize
    ensures { result ≡ length (take_while is_plain octets.now) }
{
    octets.iter().copied().take_while(|b| !is_blank(*b)).count()
}

/// A space or a TAB.
pub fn is_blank(octet: u8) -> bool
    ensures { result ≡ is_blank octet }
{
    octet == b' ' || octet == b'\t'
}

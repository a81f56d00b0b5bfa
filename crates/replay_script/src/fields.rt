//! The lines of a script, and the fields of a line.
ghost use Rattle.std.specs.Prelude.{◌≡◌, ◌<◌, ◌==◌, ◌∷◌, length, drop, find, position};
ghost use Rattle.std.specs.List.{take_while};
ghost use Rattle.std.specs.Str.Lines.{strip_carriage_return, lines};
ghost use Rattle.replay_script.specs.Fields.{is_blank, is_plain, is_allowed, is_skipped};

use memchr::memchr;

/// The lines of a script, without their ends: each but the last is ended by LF, and a CR before that
/// belongs to the end. Where nothing stands behind the last LF there is no further line.
#[derive(Drop)]
pub struct ScriptLines<'a> {
    /// The bytes whose lines are still to come.
    pub rest: &'a [u8],
}

impl<'a> ScriptLines<'a> {
    ghost use Rattle.std.specs.Str.Lines.{lines};

    /// The lines of this script.
    pub fn new(script: &'a [u8]) -> ScriptLines<'a>
        ensures { lines result.rest.now ≡ lines script.now }
    {
        ScriptLines { rest: script }
    }
}

impl<'a> Iterator for ScriptLines<'a> {
    ghost use Rattle.std.specs.Iterator.{YieldsFirstRef, item_count};
    ghost use Rattle.std.specs.Str.Lines.{lines};

    type Item = &'a [u8];

    ghost next_gives = { YieldsFirstRef (λ s. lines s.rest.now) };

    ghost remaining = { item_count (λ s. lines s.rest.now) };

    fn next(&mut self) -> Option<&'a [u8]> {
        if self.rest.is_empty() {
            return None;
        }
        let (line, rest) = split_line(self.rest);
        self.rest = rest;
        Some(line)
    }
}

// The first line, and what stands behind its end.
fn split_line(script: &[u8]) -> (&[u8], &[u8])
    ensures { 0 < length script.now → lines script.now ≡ result.0.now ∷ lines result.1.now }
{
    match line_len(script) {
        Some(end) => (without_return(&script[..end]), &script[end + 1..]),
        None => (script, &[]),
    }
}

// How many bytes stand before the first LF, if there is one.
fn line_len(script: &[u8]) -> Option<usize>
    ensures { result ≡ position (λ byte. byte == 10) script.now }
{
    memchr(b'\n', script)
}

fn without_return(line: &[u8]) -> &[u8]
    ensures { result.now ≡ strip_carriage_return line.now }
{
    match line {
        [front @ .., b'\r'] => front,
        _ => line,
    }
}

/// The fields of a line: what stands between spaces and TABs.
#[derive(Drop)]
pub struct Fields<'a> {
    /// The text whose fields are still to come.
    pub rest: &'a str,
}

impl<'a> Fields<'a> {
    ghost use Rattle.replay_script.specs.Fields.{fields};

    /// The fields of this line.
    pub fn new(line: &'a str) -> Fields<'a>
        ensures { fields result.rest.now ≡ fields line.now }
    {
        Fields { rest: line }
    }
}

impl<'a> Iterator for Fields<'a> {
    ghost use Rattle.std.specs.Iterator.{YieldsFirstRef, item_count};
    ghost use Rattle.replay_script.specs.Fields.{fields};

    type Item = &'a str;

    ghost next_gives = { YieldsFirstRef (λ s. fields s.rest.now) };

    ghost remaining = { item_count (λ s. fields s.rest.now) };

    fn next(&mut self) -> Option<&'a str> {
        let (field, rest) = split_field(without_blanks(self.rest));
        self.rest = rest;
        if field.is_empty() { None } else { Some(field) }
    }
}

// The text without the blanks that it begins with.
fn without_blanks(text: &str) -> &str
    ensures { result.now ≡ drop (length (take_while is_blank text.now)) text.now }
{
    &text[blank_len(text)..]
}

// How many blanks the text begins with.
fn blank_len(text: &str) -> usize
    ensures { result ≡ length (take_while is_blank text.now) }
{
    text.bytes().take_while(|b| is_blank(*b)).count()
}

// What stands before the first blank, and the rest.
fn split_field(text: &str) -> (&str, &str)
    ensures field { result.0.now ≡ take_while is_plain text.now }
    ensures rest { result.1.now ≡ drop (length (take_while is_plain text.now)) text.now }
{
    text.split_at(field_len(text))
}

// How many bytes stand before the first blank.
fn field_len(text: &str) -> usize
    ensures { result ≡ length (take_while is_plain text.now) }
{
    text.bytes().take_while(|b| !is_blank(*b)).count()
}

/// Whether the line says nothing: it is blank, or a comment.
pub fn is_skipped(line: &[u8]) -> bool
    ensures { result ≡ is_skipped line.now }
{
    match first_byte(line) {
        Some(first) => first == b'#',
        None => true,
    }
}

// The first byte that is no blank.
fn first_byte(line: &[u8]) -> Option<u8>
    ensures { result ≡ find is_plain line.now }
{
    line.iter().copied().find(|b| !is_blank(*b))
}

/// A space or a TAB.
pub fn is_blank(byte: u8) -> bool
    ensures { result ≡ is_blank byte }
{
    byte == b' ' || byte == b'\t'
}

// For each byte `1` where it may stand in a line that is no comment, and else `0`.
static ALLOWED: [u8; 256] = *b"\
    00000000010000000000000000000000\
    11111111111111111111111111111111\
    11111111111111111111111111111111\
    11111111111111111111111111111110\
    00000000000000000000000000000000\
    00000000000000000000000000000000\
    00000000000000000000000000000000\
    00000000000000000000000000000000";

/// A byte that may stand in a line that is no comment: TAB, or one of the printable ones of ASCII.
pub fn is_allowed(byte: u8) -> bool
    ensures { result ≡ is_allowed byte }
{
    ALLOWED[byte as usize] == b'1'
}

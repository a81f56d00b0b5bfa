//! The text of names (RFC 1035, sections 2.3.1 and 5.1).
ghost use Rattle.std.specs.Prelude.{◌≡◌, ◌≤◌, ◌++◌, ◌∷◌, ◌⊎◌, [], length, take, IfOk, IfErr, IfSome, IfNone, IsTrue, OnOk, IsOkUnless, MatchOption, Some, None, false};
ghost use Rattle.std.specs.Fmt.{WritesOnOk};
ghost use Rattle.std.specs.List.{list_all};
ghost use Rattle.std.specs.String.{string_bytes};
ghost use Rattle.hickory_proto_names.specs.Name.{label_bytes};
ghost use Rattle.hickory_proto_names.specs.NameDecided.{text_name};
ghost use Rattle.hickory_proto_names.specs.NameText.{HasFault, IsUnambiguous, Spells, ends_empty, front_fault, is_plain, is_number, escape_fault, pieces_name, name_text, labels_text, piece_text, printed_label, printed, written_text};
ghost use Rattle.hickory_proto_names.specs.NameTextParts.{ArePieces, Begins, BeginsPlain, IsEscape, IsNamed, are_plain, no_labels, with_label, with_last, measure_fault};

use crate::name::Name;
use crate::name_error::NameError;
use std::alloc::Global;
use std::{fmt, str};

// A character of a text: a dot between two pieces, or a byte of a label.
#[derive(Clone, Copy)]
enum Character {
    Dot,
    Byte(u8),
}

impl Name {
    /// The name that a text spells: labels joined by `.`, a `.` at the end marking a fully qualified
    /// name (RFC 1035, section 5.1). `""` is the relative name without labels, `"."` the root. In a
    /// label ASCII letters, digits and `_` stand for themselves, and so does `*` as the first
    /// character and `-` as a later one. `\DDD` is the byte of that decimal number, `\X` with any
    /// other ASCII character is that character.
    ///
    /// An error is the fault that comes first: `BadCharacter` or `BadEscape` in the text, then
    /// `EmptyLabel`, `LabelTooLong`, `NameTooLong`; or `OutOfMemory`.
    pub fn from_ascii(alloc: Global, text: &str) -> Result<Name, NameError>
        ensures ok { IfOk result (λ n. Spells text.now n) }
        ensures err { IfErr result (λ e. (e ≡ NameError.OutOfMemory) ⊎ HasFault text.now e) }
        ensures unambiguous { IsUnambiguous text.now }
        ensures computed { (result ≡ text_name text.now) ⊎ (result ≡ Err NameError.OutOfMemory) }
    {
        read_name(alloc, text)
    }

    /// `from_ascii` under its other name.
    pub fn from_str(alloc: Global, text: &str) -> Result<Name, NameError>
        ensures ok { IfOk result (λ n. Spells text.now n) }
        ensures err { IfErr result (λ e. (e ≡ NameError.OutOfMemory) ⊎ HasFault text.now e) }
        ensures unambiguous { IsUnambiguous text.now }
        ensures computed { (result ≡ text_name text.now) ⊎ (result ≡ Err NameError.OutOfMemory) }
    {
        Name::from_ascii(alloc, text)
    }

    /// The text that `Display` prints. Read again it gives the same name, case kept.
    pub fn to_ascii(&self, alloc: Global) -> Result<String, NameError>
        ensures ok { IfOk result (λ s. string_bytes s ≡ name_text self.now) }
        ensures err { IsOkUnless result NameError.OutOfMemory }
        ensures reads_back { Spells (name_text self.now) self.now }
    {
        // The last clause stands on what holds of the labels of every name.
        let _labels = self.labels();
        Ok(format!(in alloc; "{self}")?)
    }
}

// The longest text that a name without escapes can have. A name takes at most 255 bytes on the wire (RFC 1035,
// section 2.3.4). There a label has its length before it, and in the text it has a dot behind it; only the byte
// for the root has nothing in the text.
const MAX_PLAIN_TEXT: usize = 254;

// The name that the text spells. A longer text can be that of a name only if it has escapes. It is scanned for
// a fault first, so that a long text with a fault takes no memory.
fn read_name(alloc: Global, text: &str) -> Result<Name, NameError>
    ensures ok { IfOk result (λ n. Spells text.now n) }
    ensures err { IfErr result (λ e. (e ≡ NameError.OutOfMemory) ⊎ HasFault text.now e) }
{
    if MAX_PLAIN_TEXT < text.len() {
        check_text(text.as_bytes())?;
    }
    let mut pieces = read_pieces(alloc, text.as_bytes())?;
    let fqdn = take_mark(&mut pieces);
    let mut name = Name::from_labels(pieces)?;
    name.set_fqdn(fqdn);
    name.share()
}

/// The labels joined by `.`, and a `.` at the end of a fully qualified name (RFC 1035, section 5.1).
/// A byte that does not stand for itself in its place is written `\DDD`.
impl fmt::Display for Name {
    ghost use Rattle.std.specs.Prelude.{Some};
    ghost use Rattle.hickory_proto_names.specs.NameText.{name_text};

    ghost output = { λ n. Some (name_text n) };

    fn fmt<W: fmt::Write>(&self, f: &mut fmt::Formatter<W>) -> fmt::Result {
        write_labels(f, self.labels())?;
        if self.is_fqdn() {
            f.write_str(".")?;
        }
        Ok(())
    }
}

// Writes the texts of the labels with a dot between each two.
fn write_labels<W: fmt::Write>(f: &mut fmt::Formatter<W>, labels: &[Vec<u8>]) -> fmt::Result
    ensures { WritesOnOk W.write_str_gives f.old result (labels_text (label_bytes labels.now)) f.new }
{
    if let [first, rest @ ..] = labels {
        write_label(f, first)?;
        for label in rest {
            f.write_str(".")?;
            write_label(f, label)?;
        }
    }
    Ok(())
}

// Writes the text of a label.
fn write_label<W: fmt::Write>(f: &mut fmt::Formatter<W>, label: &[u8]) -> fmt::Result
    ensures { WritesOnOk W.write_str_gives f.old result (piece_text (printed_label label.now)) f.new }
{
    match plain_text(label) {
        Some(text) => f.write_str(text),
        None => write!(f, "{}", EscapedText(label)),
    }
}

// The text of a label each of whose bytes stands for itself: its bytes.
fn plain_text(label: &[u8]) -> Option<&str>
    ensures { IfSome result (λ text. text.now ≡ piece_text (printed_label label.now)) }
{
    match label {
        [first, rest @ ..] if is_plain(true, *first) && are_plain(rest) => {
            // Each byte is a letter, a digit, `-`, `_` or `*`, so all are ASCII.
            Some(unsafe { str::from_utf8_unchecked(label) })
        }
        _ => None,
    }
}

// Whether these bytes stand for themselves behind the first one of a label.
fn are_plain(bytes: &[u8]) -> bool
    ensures { result ≡ list_all (is_plain false) bytes.now }
{
    bytes.iter().all(|b| is_plain(false, *b))
}

// A label that prints as its text, byte for byte.
#[derive(Clone, Copy)]
struct EscapedText<'a>(&'a [u8]);

impl fmt::Display for EscapedText<'_> {
    ghost output = { λ l. Some (piece_text (printed_label l.0.now)) };

    fn fmt<W: fmt::Write>(&self, f: &mut fmt::Formatter<W>) -> fmt::Result {
        if let [first, rest @ ..] = self.0 {
            write!(
                f,
                "{}",
                ByteText {
                    first: true,
                    byte: *first
                }
            )?;
            for byte in rest {
                write!(
                    f,
                    "{}",
                    ByteText {
                        first: false,
                        byte: *byte
                    }
                )?;
            }
        }
        Ok(())
    }
}

// A byte of a label that prints as itself or as `\DDD`. `first` says that its label begins with it.
#[derive(Clone, Copy)]
struct ByteText {
    first: bool,
    byte: u8,
}

impl fmt::Display for ByteText {
    ghost output = { λ b. Some (written_text (printed b.first b.byte)) };

    fn fmt<W: fmt::Write>(&self, f: &mut fmt::Formatter<W>) -> fmt::Result {
        let byte = self.byte;
        if is_plain(self.first, byte) {
            f.write_char(char::from(byte))
        } else {
            write!(f, "\\{}{}{}", byte / 100, byte / 10 % 10, byte % 10)
        }
    }
}

// What has to be known of labels to say what is wrong with them.
#[derive(Clone, Copy)]
struct Measure {
    // How many bytes they take on the wire, or 256 where that is more than 255.
    wire_length: usize,
    has_empty: bool,
    has_long: bool,
}

impl Measure {
    // That of no labels.
    fn new() -> Measure
        ensures { result ≡ no_labels }
    {
        Measure {
            wire_length: 1,
            has_empty: false,
            has_long: false,
        }
    }

    // With one more label of this length.
    fn with_label(self, length: usize) -> Measure
        requires labels { self.wire_length ≤ 256 }
        requires label { length ≤ 256 }
        ensures { result ≡ with_label self length }
    {
        Measure {
            wire_length: 256.min(self.wire_length + length + 1),
            has_empty: self.has_empty || length == 0,
            has_long: self.has_long || 63 < length,
        }
    }

    // With the last piece of a text, which is the mark where it is empty, and the label before it nothing
    // where it is the only one and empty.
    fn with_last(self, length: usize) -> Measure
        requires labels { self.wire_length ≤ 256 }
        requires label { length ≤ 256 }
        ensures { result ≡ with_last self length }
    {
        if 0 < length {
            self.with_label(length)
        } else if 2 < self.wire_length {
            self
        } else {
            Measure::new()
        }
    }

    // The first fault of the labels.
    fn check(self) -> Result<(), NameError>
        ensures ok { OnOk result (measure_fault self ≡ None) }
        ensures err { IfErr result (λ e. measure_fault self ≡ Some e) }
    {
        if self.has_empty {
            return Err(NameError::EmptyLabel);
        }
        if self.has_long {
            return Err(NameError::LabelTooLong);
        }
        if 255 < self.wire_length {
            return Err(NameError::NameTooLong);
        }
        Ok(())
    }
}

// The fault that comes first in the text, by a scan that keeps nothing of it.
fn check_text(text: &[u8]) -> Result<(), NameError>
    ensures ok { OnOk result (IsNamed text.now) }
    ensures err { IfErr result (λ e. HasFault text.now e) }
{
    let mut labels = Measure::new();
    let mut length = 0;
    let mut rest = text;
    loop {
        let (run, behind) = split_run(length == 0, rest);
        length = 256.min(length + run.len());
        let Some((character, after)) = read_character(length == 0, behind)? else {
            return labels.with_last(length).check();
        };
        match character {
            Character::Byte(_) => length = 256.min(length + 1),
            Character::Dot => {
                labels = labels.with_label(length);
                length = 0;
            }
        }
        rest = after;
    }
}

// The bytes of the pieces between the dots, an empty one at the end too.
fn read_pieces(alloc: Global, text: &[u8]) -> Result<Vec<Vec<u8>>, NameError>
    ensures ok { IfOk result (λ v. ArePieces text.now (label_bytes v.items)) }
    ensures err { IfErr result (λ e. (e ≡ NameError.OutOfMemory) ⊎ HasFault text.now e) }
{
    let mut pieces = Vec::new(alloc);
    let mut piece = Vec::new(alloc);
    let mut rest = text;
    loop {
        let (run, behind) = split_run(piece.is_empty(), rest);
        piece.extend_from_slice(run)?;
        let Some((character, after)) = read_character(piece.is_empty(), behind)? else {
            pieces.push(piece)?;
            return Ok(pieces);
        };
        match character {
            Character::Byte(byte) => piece.push(byte)?,
            Character::Dot => {
                pieces.push(piece)?;
                piece = Vec::new(alloc);
            }
        }
        rest = after;
    }
}

// Whether the last piece is empty.
fn ends_empty(pieces: &[Vec<u8>]) -> bool
    ensures { result ≡ ends_empty (label_bytes pieces.now) }
{
    match pieces {
        [.., last] => last.is_empty(),
        [] => false,
    }
}

// Takes off a last empty piece, and says whether the text's name is fully qualified.
fn take_mark(pieces: &mut Vec<Vec<u8>>) -> bool
    ensures { pieces_name (label_bytes pieces.old.items) ≡ record {
      labels = label_bytes pieces.new.items;
      fqdn = result;
    } }
{
    if !ends_empty(pieces) {
        return false;
    }
    pieces.pop();
    let marked = !pieces.is_empty();
    if pieces.len() == 1 && pieces[0].is_empty() {
        pieces.pop();
    }
    marked
}

// The bytes at the front of a text that stand for themselves in their places, and the text after them.
// `first` says whether they would be the first ones of their label.
fn split_run(first: bool, text: &[u8]) -> (&[u8], &[u8])
    ensures { BeginsPlain first text.now result.0.now result.1.now }
{
    text.split_at(run_len(first, text))
}

// How many bytes at the front of a text stand for themselves in their places.
fn run_len(first: bool, text: &[u8]) -> usize
    ensures inside { result ≤ length text.now }
    ensures plain { IsTrue (are_plain first (take result text.now)) }
{
    match text {
        [byte, rest @ ..] if is_plain(first, *byte) => 1 + plain_len(rest),
        _ => 0,
    }
}

// How many bytes at the front of these stand for themselves behind the first one of a label.
fn plain_len(bytes: &[u8]) -> usize
    ensures inside { result ≤ length bytes.now }
    ensures plain { IsTrue (list_all (is_plain false) (take result bytes.now)) }
{
    let mut count = 0;
    while count < bytes.len() && is_plain(false, bytes[count]) {
        count += 1;
    }
    count
}

// The character at the front of a text, and the text after it. `first` says whether a byte would be
// the first one of its label.
fn read_character(first: bool, text: &[u8]) -> Result<Option<(Character, &[u8])>, NameError>
    ensures ok { IfOk result (λ o. MatchOption o (text.now ≡ []) (λ p. Begins first text.now p.0 p.1.now)) }
    ensures err { IfErr result (λ e. front_fault first text.now ≡ Some e) }
{
    match text {
        [] => Ok(None),
        [b'.', rest @ ..] => Ok(Some((Character::Dot, rest))),
        [b'\\', rest @ ..] => {
            let (byte, after) = read_escape(rest)?;
            Ok(Some((Character::Byte(byte), after)))
        }
        [byte, rest @ ..] if is_plain(first, *byte) => Ok(Some((Character::Byte(*byte), rest))),
        _ => Err(NameError::BadCharacter),
    }
}

// The byte of an escape, from the text behind its `\`, and the text after it.
fn read_escape(text: &[u8]) -> Result<(u8, &[u8]), NameError>
    ensures ok { IfOk result (λ p. IsEscape text.now p.0 p.1.now) }
    ensures err { IfErr result (λ e. escape_fault text.now ≡ Some e) }
{
    let [byte, rest @ ..] = text else {
        return Err(NameError::BadEscape);
    };
    if byte.is_ascii_digit() {
        return read_number(text).ok_or(NameError::BadEscape);
    }
    if !byte.is_ascii() {
        return Err(NameError::BadCharacter);
    }
    Ok((*byte, rest))
}

// The byte of three decimal digits, and the text after them.
fn read_number(text: &[u8]) -> Option<(u8, &[u8])>
    ensures some { IfSome result (λ p. IsEscape text.now p.0 p.1.now) }
    ensures none { IfNone result (is_number text.now ≡ false) }
{
    let [a @ b'0'..=b'9', b @ b'0'..=b'9', c @ b'0'..=b'9', rest @ ..] = text else {
        return None;
    };
    let number = 100 * u16::from(*a - b'0') + 10 * u16::from(*b - b'0') + u16::from(*c - b'0');
    let byte = u8::try_from(number).ok()?;
    Some((byte, rest))
}

// Flags of where in its label a byte stands for itself: as the first byte, and as a later one.
const AS_FIRST: u8 = 1;

const AS_LATER: u8 = 2;

// For each byte a digit, whose low two bits are its flags.
static PLAIN: [u8; 256] = *b"\
    00000000000000000000000000000000\
    00000000001002003333333333000000\
    03333333333333333333333333300003\
    03333333333333333333333333300000\
    00000000000000000000000000000000\
    00000000000000000000000000000000\
    00000000000000000000000000000000\
    00000000000000000000000000000000";

// Whether the byte stands for itself in a label, as its first byte or as a later one.
fn is_plain(first: bool, byte: u8) -> bool
    ensures { result ≡ is_plain first byte }
{
    let place = if first { AS_FIRST } else { AS_LATER };
    PLAIN[byte as usize] & place != 0
}

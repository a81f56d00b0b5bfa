//! What the words of a line say.
use anyhow::Context;
use std::alloc::{AllocError, Global};
use std::mem;

/// The value, where what was done to it was done.
pub fn whole<T: Drop>(done: anyhow::Result<()>, value: T) -> anyhow::Result<T> {
    match done {
        Ok(()) => Ok(value),
        Err(error) => {
            drop(value);
            Err(error)
        }
    }
}

/// Puts a value in the place of another one.
pub fn put<T: Drop>(place: &mut T, value: T) {
    drop(mem::replace(place, value));
}

/// Whether a word stands in a line.
pub fn has_word(text: &str, wanted: &str) -> bool {
    text.split_whitespace().any(|word| word == wanted)
}

/// The word of a place in a line.
pub fn word_at(text: &str, place: usize) -> anyhow::Result<&str> {
    text.split_whitespace().nth(place).context("a word more")
}

/// The number of a place in a line.
pub fn number_at(text: &str, place: usize) -> anyhow::Result<u64> {
    Ok(word_at(text, place)?.parse::<u64>()?)
}

/// What stands behind a front in one of the words.
pub fn behind<'a>(text: &'a str, front: &str) -> Option<&'a str> {
    for word in text.split_whitespace() {
        if let Some(rest) = word.strip_prefix(front) {
            return Some(rest);
        }
    }
    None
}

/// The number behind a front, or another one where no word has it.
pub fn number_behind(text: &str, front: &str, otherwise: u64) -> anyhow::Result<u64> {
    match behind(text, front) {
        Some(digits) => Ok(digits.parse::<u64>()?),
        None => Ok(otherwise),
    }
}

/// The line with a number of five digits in the place of each `%`.
pub fn numbered(alloc: Global, line: &str, number: u64) -> Result<String, AllocError> {
    let digits = format!(in alloc; "{number:05}")?;
    line.replace(alloc, "%", &digits)
}

/// Octets in hex digits.
pub fn octets_of(alloc: Global, text: &str) -> anyhow::Result<Vec<u8>> {
    let mut octets = Vec::new(alloc);
    for word in text.split_whitespace() {
        let bytes = hex::decode(alloc, word)?;
        octets.extend_from_slice(&bytes)?;
    }
    Ok(octets)
}

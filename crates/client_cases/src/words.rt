//! What the words of a line say.
use std::alloc::{AllocError, Global};

/// The octets that a text spells, two digits each; blanks between them are passed over.
pub fn octets_of(alloc: Global, text: &str) -> anyhow::Result<Vec<u8>> {
    let mut digits = String::new(alloc);
    for word in text.split_ascii_whitespace() {
        digits.push_str(word)?;
    }
    Ok(hex::decode(alloc, digits.as_str())?)
}

/// The numbers of a text; a word that is none is 0.
pub fn numbers_of(alloc: Global, text: &str) -> Result<Vec<u64>, AllocError> {
    let mut numbers = Vec::new(alloc);
    for word in text.split_ascii_whitespace() {
        numbers.push(word.parse::<u64>().unwrap_or(0))?;
    }
    Ok(numbers)
}

/// A word, and octets as hex digits.
pub fn show_octets(
    rt: &impl Print,
    alloc: Global,
    word: &str,
    octets: &[u8],
) -> Result<(), AllocError> {
    let digits = hex::encode(alloc, octets)?;
    let _ = rt.print(word);
    let _ = rt.print(" ");
    let _ = rt.println(digits.as_str());
    Ok(())
}

//! What the words of a line say.
use std::alloc::{AllocError, Global};

/// Whether a word stands in a line.
pub fn has_word(text: &str, wanted: &str) -> bool {
    text.split_whitespace().any(|word| word == wanted)
}

/// The numbers of a line.
pub fn numbers_of(alloc: Global, text: &str) -> Result<Vec<u64>, AllocError> {
    let mut numbers = Vec::new(alloc);
    for word in text.split_whitespace() {
        if let Ok(number) = word.parse::<u64>() {
            numbers.push(number)?;
        }
    }
    Ok(numbers)
}

/// The number of a place in a line.
pub fn number(numbers: &[u64], place: usize) -> u64 {
    numbers.get(place).copied().unwrap_or(0)
}

/// Numbers as places.
pub fn places_of(alloc: Global, numbers: &[u64]) -> Result<Vec<usize>, AllocError> {
    let mut places = Vec::new(alloc);
    for number in numbers {
        places.push(*number as usize)?;
    }
    Ok(places)
}

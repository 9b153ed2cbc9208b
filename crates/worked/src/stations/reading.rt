//! Parses lists in a line of words.
use std::alloc::Global;
use test_kit::bytes_of;

/// Stands for an empty list.
const NONE: &str = ".";

/// Decodes each word.
pub fn pieces_of(alloc: Global, words: &str) -> Option<Vec<Vec<u8>>> {
    let mut pieces = Vec::new(alloc);
    if words != NONE {
        for word in words.split(',') {
            pieces.push(bytes_of(alloc, word)?).ok()?;
        }
    }
    Some(pieces)
}

/// Returns the same chunks as slices.
pub fn slices_of<'a>(alloc: Global, pieces: &'a [Vec<u8>]) -> Option<Vec<&'a [u8]>> {
    let mut slices = Vec::new(alloc);
    for piece in pieces {
        slices.push(piece.as_slice()).ok()?;
    }
    Some(slices)
}

/// Parses a list of numbers.
pub fn moments_of(alloc: Global, words: &str) -> Option<Vec<u64>> {
    let mut moments = Vec::new(alloc);
    for word in words.split(',') {
        moments.push(word.parse::<u64>().ok()?).ok()?;
    }
    Some(moments)
}

// Lines, made with the bitwise CRC-8 and not by the crates that are tried.
use std::array;

// The words of line i, of which the ninth is the xor of the eight.
pub fn words_of(i: u64) -> [u64; 9] {
    let mut words = array::from_fn(|k| trials::word_of(i % 1000 * 8 + k as u64));
    words[8] = words[..8].iter().fold(0, |xor, word| xor ^ *word);
    words
}

// The 81 bytes of nine codewords: of each a word's bytes, highest first, and then its check byte.
pub fn laid(words: [u64; 9]) -> [u8; 81] {
    let mut line = [0; 81];
    let (cells, _) = line.as_chunks_mut::<9>();
    for (cell, word) in cells.iter_mut().zip(words) {
        cell[..8].copy_from_slice(&word.to_be_bytes());
        cell[8] = trials::remainder(word, 0);
    }
    line
}

// The 64 bytes of a line's words, which have no check byte behind each.
pub fn line_bytes(words: [u64; 9]) -> [u8; 64] {
    let mut out = [0; 64];
    let (cells, _) = out.as_chunks_mut::<8>();
    for (bytes, word) in cells.iter_mut().zip(words) {
        *bytes = word.to_be_bytes();
    }
    out
}

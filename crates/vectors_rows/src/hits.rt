// Chips hit on lines of a rank, and the record once they are repaired.
use record::Rank;
use std::ops::Range;

// One bit of the word.
pub const BIT: [u8; 9] = [0, 0, 0, 0, 0, 0, 0, 1, 0];

// 07h on the check byte: mending inverts the lowest bit of the word, which was right.
pub const C07: [u8; 9] = [0, 0, 0, 0, 0, 0, 0, 0, 7];

// Hits a chip on some lines. Record and memory stay two, as the calls that are tried take them.
pub fn hit_lines(rank: Rank, memory: &mut [u8], pattern: [u8; 9], chip: u32, lines: Range<u32>) {
    for line in lines {
        rank::rank_fault(rank, memory, line, chip, &pattern);
    }
}

// The record with so many words repaired.
pub fn repaired(rank: Rank, words: u32) -> Rank {
    let mut after = rank;
    after.repairs[0] = words;
    after
}

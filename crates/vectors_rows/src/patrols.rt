// Patrols over a row that is diagnosed.
use super::hits::{BIT, C07, hit_lines, repaired};
use rank_trials::{CATCH_WORD, Session, Tally, record_of};
use record::Rank;
use std::ops::Range;

// Chip 0 is hit by 07h on all 128 lines, and chip 1 by a bit on lines 110 to 121. Repairs take away what is counted: from line 0 upwards,
// chip 0 is blamed on lines 110 to 114, where 17 to 13 of the lines above are still hit. For line 115 they are 12, and lines 115 to 121 are
// refused and stay. From line 110 upwards all are repaired, since lines 0 to 109 are still hit.
pub fn over_row(s: &mut Session) {
    patrol(s, 0, Tally::new(128, 7, 126), 115..122, 115..122);
    patrol(s, 110, Tally::new(18, 0, 30), 0..110, 0..0);
}

// A patrol up to the last line: its first line, what is due, and the lines on which chip 0 and chip 1 are to stay hit.
fn patrol(s: &mut Session, first: u32, due: Tally, left_0: Range<u32>, left_1: Range<u32>) {
    let mut memory = [0; 10368];
    let mut after = [0; 10368];
    let rank = record_of(128, true, CATCH_WORD);
    hit_both(rank, &mut memory, 0..128, 110..122);
    hit_both(rank, &mut after, left_0, left_1);
    let p = rank::rank_patrol(rank, &mut memory, 0, first, 128);
    let right = p.refusal == 0
        && Tally::new(p.visited, p.refused, p.rewritten) == due
        && p.rank == repaired(rank, due.rewritten);
    s.count(right && memory == after);
}

// Hits chip 0 by 07h on some lines, and chip 1 by a bit.
fn hit_both(rank: Rank, memory: &mut [u8], lines_0: Range<u32>, lines_1: Range<u32>) {
    hit_lines(rank, memory, C07, 0, lines_0);
    hit_lines(rank, memory, BIT, 1, lines_1);
}

// Reads of a line whose row is diagnosed. A visit is given by N and the wanted line; for one chip or two, the lines on which they are hit;
// and what is due: an answer or a refusal, and the passes. On the wanted line chip 0 is hit by 07h and chip 1 by a bit, and no other.
use super::hits::{BIT, C07, hit_lines, repaired};
use rank_trials::{Session, UNREAD, record_of};
use record::Rank;
use std::ops::Range;
use trials::{Visit, outcome};

// A chip that is hit by a bit, from a first line up to an end. No `Range`, which is not `Copy`.
#[derive(Clone, Copy)]
struct Hit {
    chip: u32,
    first: u32,
    end: u32,
}

fn on(chip: u32, lines: Range<u32>) -> Hit {
    Hit {
        chip,
        first: lines.start,
        end: lines.end,
    }
}

// What is hit before a read: N, the wanted line, and up to two hits.
#[derive(Clone, Copy)]
struct Damage<'a> {
    lines: u32,
    wanted: u32,
    hits: &'a [Hit],
}

// Of 127 other lines ten times 12 falls short, and ten times 13 does not. The first and the last line of the row count.
pub fn by_count(s: &mut Session) {
    visit(s, 128, 127, &[on(0, 0..12)], Err(21), 257);
    visit(s, 128, 127, &[on(0, 0..13)], Ok(()), 257);
    let ends = [on(0, 0..7), on(0, 122..128)];
    visit(s, 128, 64, &ends, Ok(()), 257);
}

// Another chip reaches the mark too, or just not; the only chip that does is sound on the wanted line.
pub fn by_chip(s: &mut Session) {
    let wanted_too = [on(0, 10..23), on(1, 23..36)];
    visit(s, 128, 9, &wanted_too, Err(21), 257);
    let other_too = [on(0, 10..23), on(8, 10..23)];
    visit(s, 128, 9, &other_too, Err(21), 257);
    let other_short = [on(0, 10..23), on(8, 10..22)];
    visit(s, 128, 9, &other_short, Ok(()), 257);
    visit(s, 128, 9, &[on(2, 10..128)], Err(21), 257);
}

// The lines of another row don't count.
pub fn by_row(s: &mut Session) {
    visit(s, 256, 128, &[on(0, 0..128)], Err(21), 257);
    let behind = [on(0, 115..127), on(0, 128..256)];
    visit(s, 256, 127, &behind, Err(21), 257);
    let before = [on(0, 128..256), on(1, 0..128)];
    visit(s, 256, 255, &before, Ok(()), 257);
}

// The last row has one line, 11 lines, or 12.
pub fn by_short_row(s: &mut Session) {
    visit(s, 129, 128, &[on(0, 0..128)], Err(21), 3);
    visit(s, 139, 138, &[on(0, 128..129)], Ok(()), 23);
    visit(s, 140, 138, &[on(0, 128..129)], Err(21), 25);
    let two = [on(0, 128..129), on(0, 139..140)];
    visit(s, 140, 138, &two, Ok(()), 25);
}

// Outside the premise: the chip that is blamed is the one hit by a bit, and the lowest bits of both words come back inverted.
pub fn another_line(s: &mut Session) {
    let mut answer = written();
    answer[7] = 0x3d;
    answer[15] = 0x3d;
    let damage = Damage {
        lines: 2,
        wanted: 0,
        hits: &[on(1, 1..2)],
    };
    visit_gives(s, damage, Ok(answer), 5);
}

// A visit that answers the line written, or is refused.
fn visit(
    s: &mut Session,
    lines: u32,
    wanted: u32,
    hits: &[Hit],
    due: Result<(), u32>,
    passes: u32,
) {
    let damage = Damage {
        lines,
        wanted,
        hits,
    };
    visit_gives(s, damage, due.map(|_| written()), passes);
}

// The wanted line. No word of it is zero, that of chip 8 neither.
fn written() -> [u8; 64] {
    let mut line = [0x3c; 64];
    line[0] = 0xc3;
    line
}

// A read of a rank of up to 256 lines, which is to answer some bytes or be refused. The catch-words are zero, as are the words of the
// other lines: a collision there is not counted, and renews nothing.
fn visit_gives(s: &mut Session, damage: Damage<'_>, due: Result<[u8; 64], u32>, passes: u32) {
    let mut memory = [0; 20736];
    let mut after = [0; 20736];
    // The remainder keeps the end within both.
    let end = (damage.lines % 257 * 81) as usize;
    let rank = record_of(damage.lines, true, 0);
    let record = due_after(rank, &mut after[..end], damage, due);
    make_damage(rank, &mut memory[..end], damage);
    let right = read_gives(rank, &mut memory[..end], damage.wanted, due, passes, record);
    s.count(right && memory == after);
}

// Makes of a memory what the read is to leave, and gives the record that it is to return. A refused one changes nothing.
fn due_after(
    rank: Rank,
    memory: &mut [u8],
    damage: Damage<'_>,
    due: Result<[u8; 64], u32>,
) -> Rank {
    make_damage(rank, memory, damage);
    let Ok(answer) = due else {
        return rank;
    };
    rank::rank_write(rank, memory, damage.wanted, &answer);
    repaired(rank, 2)
}

// Whether a read does what is due. A refused one leaves the buffer as it was.
fn read_gives(
    rank: Rank,
    memory: &mut [u8],
    line: u32,
    due: Result<[u8; 64], u32>,
    passes: u32,
    record: Rank,
) -> bool {
    let mut buffer = [UNREAD; 64];
    let r = rank::rank_read(rank, memory, 0, line, &mut buffer);
    outcome(r.refusal) == due.map(|_| ())
        && Visit::new(r.passes, r.flagged, r.collisions) == Visit::new(passes, 0x003, 0x000)
        && r.rank == record
        && buffer == due.unwrap_or([UNREAD; 64])
}

// Hits the row, and writes and hits the wanted line.
fn make_damage(rank: Rank, memory: &mut [u8], damage: Damage<'_>) {
    for hit in damage.hits {
        hit_lines(rank, memory, BIT, hit.chip, hit.first..hit.end);
    }
    let line = damage.wanted;
    rank::rank_write(rank, memory, line, &written());
    rank::rank_fault(rank, memory, line, 0, &C07);
    rank::rank_fault(rank, memory, line, 1, &BIT);
}

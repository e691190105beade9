// Visits to lines of which up to three chips are damaged or hold their catch-word. A kind of visit has what is done to these chips, whether
// an answer is due or a refusal, by its number, and the passes. Each line is a memory of its own: its row has no other line, and nothing is
// diagnosed.
use super::lines;
use std::io;
use trials::{Visit, outcome};

// What is done to a chip.
#[derive(Clone, Copy, PartialEq, Eq)]
enum Damage {
    // One of its 72 bits is inverted.
    Bit,
    // 07h on its check byte: mending inverts the lowest bit of its word, which was right.
    C07,
    // It is beyond mending: 300h on its word, or 03h on its check byte, which leaves its word as it was.
    W300,
    C03,
    // The codeword of word 1 is xored in, so that it holds another codeword.
    Codeword,
    // It is as it was laid, and its word is its catch-word.
    Collision,
}

use Damage::{Bit, C03, C07, Codeword, Collision, W300};

impl Damage {
    fn is_flagged(self) -> bool {
        matches!(&self, Bit | C07 | W300 | C03)
    }

    // What is xored into the chip, for a bit that of a number.
    fn pattern(self, bit: u64) -> [u8; 9] {
        match self {
            Bit => one_bit(bit),
            C07 => [0, 0, 0, 0, 0, 0, 0, 0, 7],
            W300 => [0, 0, 0, 0, 0, 0, 3, 0, 0],
            C03 => [0, 0, 0, 0, 0, 0, 0, 0, 3],
            Codeword => [0, 0, 0, 0, 0, 0, 0, 1, 7],
            Collision => [0; 9],
        }
    }
}

// The pattern of one bit of 72.
fn one_bit(bit: u64) -> [u8; 9] {
    let mut pattern = [0; 9];
    pattern[(bit % 72 / 8) as usize] = 1 << (bit % 8);
    pattern
}

pub fn report(rt: &impl Print) -> io::Result<()> {
    report_answered(rt)?;
    report_collisions(rt)?;
    report_beyond(rt)?;
    report_refused(rt)
}

fn report_answered(rt: &impl Print) -> io::Result<()> {
    visits(rt, "clean lines", &[], Ok(()), 1)?;
    visits(rt, "one bit inverted", &[Bit], Ok(()), 2)?;
    visits(rt, "07h, rebuilt and not mended", &[C07], Ok(()), 2)?;
    visits(rt, "bits of two chips", &[Bit, Bit], Ok(()), 3)?;
    visits(rt, "bits of three chips", &[Bit, Bit, Bit], Ok(()), 3)
}

fn report_collisions(rt: &impl Print) -> io::Result<()> {
    visits(rt, "a collision", &[Collision], Ok(()), 2)?;
    visits(rt, "two collisions", &[Collision, Collision], Ok(()), 2)?;
    visits(rt, "a collision and a bit", &[Collision, Bit], Ok(()), 2)?;
    let two_bits = [Collision, Bit, Bit];
    visits(rt, "a collision and two bits", &two_bits, Ok(()), 3)
}

fn report_beyond(rt: &impl Print) -> io::Result<()> {
    visits(rt, "300h and a bit", &[W300, Bit], Ok(()), 3)?;
    visits(rt, "03h and a bit", &[C03, Bit], Ok(()), 3)?;
    visits(rt, "300h and two bits", &[W300, Bit, Bit], Ok(()), 3)?;
    let all_three = [W300, Collision, Bit];
    visits(rt, "300h, a collision and a bit", &all_three, Ok(()), 3)
}

fn report_refused(rt: &impl Print) -> io::Result<()> {
    visits(rt, "20 by a codeword", &[Codeword], Err(20), 1)?;
    let collides = [Codeword, Collision];
    visits(rt, "20 by a codeword, a collision", &collides, Err(20), 2)?;
    visits(rt, "21 by 07h and a bit", &[C07, Bit], Err(21), 3)?;
    let all_three = [C07, Bit, Collision];
    visits(rt, "21 by 07h, a bit, a collision", &all_three, Err(21), 3)?;
    visits(rt, "21 by 300h twice", &[W300, W300], Err(21), 3)?;
    visits(rt, "21 by 300h and 03h", &[W300, C03], Err(21), 3)?;
    let three = [C03, C03, Bit];
    visits(rt, "21 by 03h twice and a bit", &three, Err(21), 3)
}

fn visits(
    rt: &impl Print,
    what: &str,
    damages: &[Damage],
    due: Result<(), u32>,
    passes: u32,
) -> io::Result<()> {
    trials::run(rt, what, 648, |i| visit_succeeds(i, damages, due, passes))
}

// Whether an answered line is left as it was laid, and a refused one as it was damaged. The catch-words of the chips that collide are their
// words, and the others' are not.
fn visit_succeeds(i: u64, damages: &[Damage], due: Result<(), u32>, passes: u32) -> bool {
    let words = lines::words_of(i);
    let laid = lines::laid(words);
    let mut line = laid;
    let mut catch_words = words.map(|word| word ^ 0x5a5a_5a5a_5a5a_5a5a);
    let mut seen = Visit::new(passes, 0, 0);
    for (damage, number) in damages.iter().zip(chips_of(i)) {
        let chip = number % 9;
        xor_into(&mut line, chip, damage.pattern(i / 9));
        if damage.is_flagged() {
            seen.flagged |= 1 << chip;
        }
        if *damage == Collision {
            seen.collisions |= 1 << chip;
            catch_words[chip] = words[chip];
        }
    }
    let after = if due.is_ok() { laid } else { line };
    visit_leaves(line, &catch_words, due, seen, after)
}

// Whether a visit does what is due, reports what is to be seen, and leaves the line as it is to be.
pub fn visit_leaves(
    before: [u8; 81],
    catch_words: &[u64; 9],
    due: Result<(), u32>,
    seen: Visit,
    after: [u8; 81],
) -> bool {
    let mut line = before;
    let report = steps::visit(&mut line, 1, 0, catch_words);
    outcome(line::refusal(report.outcome)) == due
        && Visit::new(report.passes, report.flagged, report.collisions) == seen
        && line == after
}

// Xors a pattern into one chip of a line.
fn xor_into(line: &mut [u8; 81], chip: usize, pattern: [u8; 9]) {
    let start = chip % 9 * 9;
    for (byte, bits) in line[start..start + 9].iter_mut().zip(pattern) {
        *byte ^= bits;
    }
}

// The three chips of trial i, modulo 9. Over 648 trials each bit of each chip is once that of the first chip, and each two chips are first
// and second.
fn chips_of(i: u64) -> [usize; 3] {
    let first = (i % 9) as usize;
    let step = (i / 9 % 8) as usize;
    [first, first + 1 + step, first + 1 + (step + 3) % 8]
}

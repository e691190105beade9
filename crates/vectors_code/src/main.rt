// The code inside a chip, tried at run time: against document 01's marked examples, against a CRC-8 made another way and against the former
// table of positions. Each line of output says what was tried, how many trials succeeded, and of how many.
#![tactic(auto)]

use nine_bytes::Cell;
use std::{array, io};
use trials::{remainder, run, word_of};

mod former;
mod nine_bytes;

fn main(rt: HostRuntime) -> io::Result<()> {
    run(&rt, "marked examples", 12, row_holds)?;
    run(&rt, "published CRC-8", 1, |_| digits_crc() == 0xf4)?;
    run(&rt, "words with one bit set", 64, one_bit_agrees)?;
    run(&rt, "words of a fixed sequence", 4096, word_agrees)?;
    run(&rt, "the same, eight at once", 4096, lane_agrees)?;
    run(&rt, "one-bit damages of 4 codewords", 288, damage_is_mended)?;
    run(&rt, "word 0 beside each check byte", 256, trying_agrees)?;
    run(&rt, "positions in the former table", 256, former::agrees)
}

// Whether a row of the marked examples is what the functions of `code` say.
fn row_holds(i: u64) -> bool {
    let rows = known_answers::table();
    let (word, check, given, syndrome, position, mended) = rows[(i % 12) as usize];
    let cell = Cell { word, check: given };
    let due = Cell {
        word: mended,
        check: given,
    };
    code::check_byte(word) == check
        && cell.syndrome() == syndrome
        && cell.position() == position
        && cell.mends_to(due, position)
}

// The CRC-8 of the digits 1 to 9 in ASCII: the remainder of their nine bytes times x^8. F4h is the check value of CRC-8/SMBUS, which has
// this polynomial and adds nothing.
fn digits_crc() -> u8 {
    let s = code::syndrome(0x3132_3334_3536_3738, 0x39);
    code::check_byte(u64::from(s))
}

// A word with one bit set, beside check byte FFh.
fn one_bit_agrees(i: u64) -> bool {
    let word = 1 << (i % 64);
    Cell { word, check: 0xff }.agrees()
}

// A word and a check byte of the fixed sequence.
fn word_agrees(i: u64) -> bool {
    let word = word_of(i);
    let check = (word / 256 % 256) as u8;
    Cell { word, check }.agrees()
}

// Whether the check byte of word i of the sequence, made with those of the seven others of its eight, is that of the bitwise CRC-8. Those
// of the even words and of the odd ones are a number each, of four lanes.
fn lane_agrees(i: u64) -> bool {
    let first = i % 65536 / 8 * 8;
    let words: [u64; 8] = array::from_fn(|j| word_of(first + j as u64).swap_bytes());
    let [a, b, c, d, e, f, g, h] = words;
    let made = lanes::check_bytes(a, b, c, d, e, f, g, h);
    let four = if i % 2 == 0 { made.even } else { made.odd };
    (four >> (i % 8 / 2 * 16)) % 65536 == u64::from(remainder(word_of(i), 0))
}

// Whether a codeword of the sequence is sound, and with one of its 72 bits inverted is found and mended.
fn damage_is_mended(i: u64) -> bool {
    let sound = Cell::codeword(word_of(i / 72));
    let position = Some((i % 72) as u8);
    let damaged = sound.inverted(position);
    damaged.agrees()
        && damaged.position() == position
        && damaged.mends_to(sound, position)
        && sound.mends_to(sound, None)
}

// Whether word 0 beside a check byte, which is its syndrome then, has the position, the word after mending and the status that the bitwise
// CRC-8 finds.
fn trying_agrees(i: u64) -> bool {
    let cell = Cell {
        word: 0,
        check: (i % 256) as u8,
    };
    let found = cell.position_by_trying();
    cell.position() == found && cell.mends_to(cell.inverted(found), found)
}

// A line's words and check bytes in its 81 lent bytes (document 01, "The rank"). Check bytes pass between lent bytes and codewords here
// alone.
#![tactic(auto)]

ghost use Rattle.std.specs.Prelude.{◌≡◌, ◌+◌, ◌*◌, ◌<◌};
ghost use Rattle.code.specs.Code.{check_of};
ghost use Rattle.words.specs.Bytes.{xor_bytes};
ghost use Rattle.cells.specs.Cells.{chips, chip_at, word_at, check_at, codeword, with_chip, line_word, stored, line_of};

pub mod checks;
pub mod masks;
pub mod places;

// The chips of a line. A chip is its number, a plain `usize` below this: it is the index of arrays and the place of a bit in masks, where a
// type of its own would be taken apart.
pub const CHIPS: usize = 9;

// The bytes of a chip in a line, a word and its check byte; a pattern has as many.
pub const CHIP_BYTES: usize = 9;

// The bytes of a line in the memory, and the bytes of data that it holds.
pub const LINE_BYTES: usize = 81;

pub const DATA_BYTES: usize = 64;

// The word of chip K.
#[tactic(auto, unfolding(crate::specs::Cells::word_at))]
pub fn word_at(line: &[u8; LINE_BYTES], k: usize) -> u64
    requires { k < chips }
    ensures { result ≡ word_at line.now k }
{
    words::load_word(line, CHIP_BYTES * k)
}

// The check byte of chip K.
#[tactic(auto, unfolding(crate::specs::Cells::check_at))]
pub fn check_at(line: &[u8; LINE_BYTES], k: usize) -> u8
    requires { k < chips }
    ensures { result ≡ check_at line.now k }
{
    line[CHIP_BYTES * k + 8]
}

// Lays a word and its check byte, which the caller has, in chip K.
pub fn lay_checked(line: &mut [u8; LINE_BYTES], k: usize, word: u64, check: u8)
    requires chip { k < chips }
    requires check { check ≡ check_of word }
    ensures { line.new ≡ with_chip line.old k (codeword word) }
{
    words::store_word(line, CHIP_BYTES * k, word);
    words::store_byte(line, CHIP_BYTES * k + 8, check);
}

// Lays the nine codewords of a line's 64 bytes.
pub fn lay_line(line: &mut [u8; LINE_BYTES], bytes: &[u8; DATA_BYTES])
    ensures { line.new ≡ stored (line_word bytes.now) }
{
    let eight = checks::of_eight(bytes, 8);
    let mut parity = 0;
    // By number: k is the chip, the place of its word among the 64 bytes, and that of its check byte in the lanes.
    for k in 0..8 {
        let word = words::load_word(bytes, 8 * k);
        parity ^= word;
        lay_checked(line, k, word, checks::of_word(eight, k));
    }
    lay_checked(line, 8, parity, checks::across(eight));
}

// Puts a line's 64 bytes, those of chips 0 to 7, in a buffer.
pub fn read_line(line: &[u8; LINE_BYTES], buffer: &mut [u8; DATA_BYTES])
    ensures { buffer.new ≡ line_of line.now }
{
    // By number: of a buffer that was lent in parts, as by `chunks_exact_mut`, a proof knows the length alone.
    for k in 0..8 {
        words::store_word(buffer, 8 * k, word_at(line, k));
    }
}

// Xors a pattern of nine bytes into chip K.
pub fn xor_into(line: &mut [u8; LINE_BYTES], k: usize, pattern: &[u8; CHIP_BYTES])
    requires { k < chips }
    ensures { line.new ≡ with_chip line.old k (xor_bytes (chip_at line.old k) pattern.now) }
{
    // By place: of a chip's bytes lent by `iter_mut` a proof knows nothing afterwards.
    for (i, bits) in pattern.iter().enumerate() {
        line[CHIP_BYTES * k + i] ^= *bits;
    }
}

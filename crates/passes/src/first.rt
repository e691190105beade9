// Pass one of a visit.
ghost use Rattle.std.specs.Prelude.{◌≡◌};
ghost use Rattle.cells.specs.Cells.{chips};
ghost use Rattle.cells.specs.Chips.{xor_all, mask};
ghost use Rattle.passes.specs.Passes.{pass_one, is_candidate, is_unsound};

use super::{equal, held_words};
use cells::{CHIPS, LINE_BYTES, masks};

// What pass one gives: the chips that sent their catch-word, and the xor of the nine words sent.
#[derive(Clone, Copy)]
pub struct PassOne {
    pub candidates: u32,
    pub parity: u64,
}

// Registers equal to catch-words. A chip that holds no codeword sends its register, and so its catch-word; one that holds a codeword sends
// its word. The candidates are the chips that hold no codeword and those whose word is their catch-word.
pub fn pass(line: &[u8; LINE_BYTES], catch_words: &[u64; CHIPS], unsound: u32) -> PassOne
    requires { unsound ≡ mask (is_unsound line.now) chips }
    ensures candidates { result.candidates ≡ mask (is_candidate line.now catch_words.now) chips }
    ensures parity { result.parity ≡ xor_all (pass_one line.now catch_words.now) chips }
{
    let candidates = unsound | equal::of_line(line, catch_words);
    // The xor of the words held, and for each chip that holds no codeword its catch-word in place of its word.
    let mut parity = held_words::parity(line);
    for k in masks::chips(unsound) {
        parity ^= cells::word_at(line, k) ^ catch_words[k];
    }
    PassOne { candidates, parity }
}

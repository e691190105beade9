// Pass three of a visit.
ghost use Rattle.std.specs.Prelude.{◌≡◌, ◌%◌};
ghost use Rattle.code.specs.Code.{mended, mended_word};
ghost use Rattle.cells.specs.Chips.{xor_all, mask, AtPlaces};
ghost use Rattle.cells.specs.Cells.{chips, cell_at};
ghost use Rattle.passes.specs.Passes.{pass_one, pass_three, is_flagged, is_flagged_beyond};
ghost use Rattle.passes.specs.Syndromes.{syndromes_of};

use super::syndromes;
use super::syndromes::Syndromes;
use cells::places::Places;
use cells::{CHIPS, LINE_BYTES, masks};

// What pass three gives: the xor of the nine words sent, and the flagged chips that are beyond mending.
#[derive(Clone, Copy)]
pub struct PassThree {
    pub parity: u64,
    pub beyond: u32,
}

// Enable clear: no chip sends its register. A chip that holds a codeword sends its word, as in pass one; a flagged chip sends M of its nine
// bytes in place of its catch-word. That word, and the check byte after mending, are put at the chip's place.
pub fn pass(
    line: &[u8; LINE_BYTES],
    catch_words: &[u64; CHIPS],
    syndromes: Syndromes,
    parity: u64,
    flagged: u32,
    places: &mut Places,
) -> PassThree
    requires syndromes { syndromes ≡ syndromes_of line.now }
    requires parity { parity ≡ xor_all (pass_one line.now catch_words.now) chips }
    requires flagged { flagged ≡ mask (is_flagged line.now catch_words.now) chips }
    ensures parity { result.parity ≡ xor_all (pass_three line.now catch_words.now) chips }
    ensures beyond { result.beyond ≡ mask (is_flagged_beyond line.now catch_words.now) chips }
    ensures words { AtPlaces (is_flagged line.now catch_words.now) (λ k. mended_word (cell_at line.now k)) places.new.words chips }
    ensures checks { AtPlaces (is_flagged line.now catch_words.now) (λ k. mended (cell_at line.now k) % 256) places.new.checks chips }
{
    let mut xor = parity;
    let mut beyond = 0;
    for k in masks::chips(flagged) {
        let syndrome = syndromes::of_chip(syndromes, k);
        let sent = code::mend(cells::word_at(line, k), cells::check_at(line, k), syndrome);
        places.words[k] = sent.word;
        places.checks[k] = sent.check;
        xor ^= catch_words[k] ^ sent.word;
        beyond |= masks::only_if(code::is_beyond(sent.status), k);
    }
    PassThree {
        parity: xor,
        beyond,
    }
}

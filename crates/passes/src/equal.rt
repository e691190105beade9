// Which chips' words are their catch-words.
ghost use Rattle.std.specs.Prelude.{◌≡◌, eqb};
ghost use Rattle.cells.specs.Cells.{chips};
ghost use Rattle.cells.specs.Chips.{count, mask};
ghost use Rattle.passes.specs.Scan.{equals_catch_word};

use cells::{CHIPS, LINE_BYTES, masks};

// The mask of the chips whose word is their catch-word. Most lines have none, and the mask is then not put together.
pub fn of_line(line: &[u8; LINE_BYTES], catch_words: &[u64; CHIPS]) -> u32
    ensures { result ≡ mask (equals_catch_word line.now catch_words.now) chips }
{
    if none(line, catch_words) {
        return 0;
    }
    masks::of_chips(|k| cells::word_at(line, k) == catch_words[k])
}

// Whether no chip's word is its catch-word.
pub fn none(line: &[u8; LINE_BYTES], catch_words: &[u64; CHIPS]) -> bool
    ensures { result ≡ eqb (count (equals_catch_word line.now catch_words.now) chips) 0 }
{
    (0..CHIPS).all(|k| cells::word_at(line, k) != catch_words[k])
}

// Passes one and two of a line of which only the flagged chips are wanted (document 02, Req 04).
ghost use Rattle.std.specs.Prelude.{◌≡◌};
ghost use Rattle.cells.specs.Cells.{chips};
ghost use Rattle.cells.specs.Chips.{mask};
ghost use Rattle.passes.specs.Passes.{is_flagged};

use super::syndromes;
use cells::{CHIPS, LINE_BYTES};

// The mask of the flagged chips. They are those that hold no codeword: one that does sends its word in both passes. The catch-words are
// given for the contract alone.
pub fn flagged(line: &[u8; LINE_BYTES], catch_words: &[u64; CHIPS]) -> u32
    ensures { result ≡ mask (is_flagged line.now catch_words.now) chips }
{
    let syndromes = syndromes::of_line(line);
    // Most lines have none, and the mask is then not put together.
    if syndromes::are_zero(syndromes) {
        return 0;
    }
    syndromes::unsound_chips(syndromes)
}

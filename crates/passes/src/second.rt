// Pass two of a visit.
ghost use Rattle.std.specs.Prelude.{◌≡◌};
ghost use Rattle.cells.specs.Cells.{chips};
ghost use Rattle.cells.specs.Chips.{mask};
ghost use Rattle.passes.specs.Passes.{is_candidate, is_flagged, is_unsound};

use cells::{CHIPS, LINE_BYTES};

// Registers equal to the complements: the mask of the candidates that send them, the flagged chips. A candidate that holds no codeword
// sends whatever its register holds. One that holds a codeword sends its word, the catch-word again, which is no complement of itself.
// The line and the catch-words are given for the contract alone.
pub fn pass(
    line: &[u8; LINE_BYTES],
    catch_words: &[u64; CHIPS],
    unsound: u32,
    candidates: u32,
) -> u32
    requires unsound { unsound ≡ mask (is_unsound line.now) chips }
    requires candidates { candidates ≡ mask (is_candidate line.now catch_words.now) chips }
    ensures { result ≡ mask (is_flagged line.now catch_words.now) chips }
{
    candidates & unsound
}

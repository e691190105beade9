// Whether a line is clean.
ghost use Rattle.std.specs.Prelude.{◌≡◌};
ghost use Rattle.passes.specs.Scan.{is_clean};

use super::{equal, held_words, syndromes};
use cells::{CHIP_BYTES, CHIPS, LINE_BYTES, checks};

// Whether no chip is a candidate and the nine words sent in pass one xor to zero. Where the words and the check bytes of nine chips xor to
// zero and eight of the chips hold codewords, so does the ninth.
pub fn is_clean(line: &[u8; LINE_BYTES], catch_words: &[u64; CHIPS]) -> bool
    ensures { result ≡ is_clean line.now catch_words.now }
{
    if held_words::parity(line) != 0 || !equal::none(line, catch_words) {
        return false;
    }
    let held = syndromes::held(line);
    // The xor of the nine check bytes, as the law of the ninth chip has it.
    if checks::across(held) ^ cells::check_at(line, 8) != 0 {
        return false;
    }
    // Chips 0 to 7 hold codewords where their check bytes are those that their words ask for.
    checks::of_eight(line, CHIP_BYTES) == held
}

// The words that the chips of a line hold.
ghost use Rattle.std.specs.Prelude.{◌≡◌};
ghost use Rattle.cells.specs.Chips.{xor_all};
ghost use Rattle.cells.specs.Cells.{chips, word_at};

use cells::{CHIPS, LINE_BYTES};

// The xor of the nine words.
pub fn parity(line: &[u8; LINE_BYTES]) -> u64
    ensures { result ≡ xor_all (word_at line.now) chips }
{
    let mut parity = 0;
    // By number: where a chip's word lies is for `word_at` to say.
    for k in 0..CHIPS {
        parity ^= cells::word_at(line, k);
    }
    parity
}

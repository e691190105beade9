// The syndromes of a line's nine chips, made once for all passes.
ghost use Rattle.std.specs.Prelude.{◌≡◌, not, ◌+◌, ◌<◌, eqb};
ghost use Rattle.cells.specs.Cells.{chips, check_at};
ghost use Rattle.cells.specs.Chips.{mask};
ghost use Rattle.cells.specs.Checks.{every_other};
ghost use Rattle.passes.specs.Syndromes.{syndromes_of, syndrome_in, are_zero};

use cells::{CHIP_BYTES, LINE_BYTES, checks, masks};
use lanes::Pair;

// Those of chips 0 to 7, each in its lane as check bytes are, and that of chip 8.
#[derive(Clone, Copy)]
pub struct Syndromes {
    pub eight: Pair,
    pub last: u8,
}

// The syndromes of a line: the check bytes that the words ask for, xored with those held.
pub fn of_line(line: &[u8; LINE_BYTES]) -> Syndromes
    ensures { result ≡ syndromes_of line.now }
{
    let asked = checks::of_eight(line, CHIP_BYTES);
    let held = held(line);
    let last = code::syndrome(cells::word_at(line, 8), cells::check_at(line, 8));
    Syndromes {
        eight: Pair {
            even: asked.even ^ held.even,
            odd: asked.odd ^ held.odd,
        },
        last,
    }
}

// The syndrome of chip K.
#[tactic(auto, unfolding(crate::specs::Syndromes::syndrome_in))]
pub fn of_chip(syndromes: Syndromes, k: usize) -> u8
    requires { k < chips }
    ensures { result ≡ syndrome_in syndromes k }
{
    if k == 8 {
        syndromes.last
    } else {
        checks::of_word(syndromes.eight, k)
    }
}

// The mask of the chips whose syndrome is not zero: those that hold no codeword.
pub fn unsound_chips(syndromes: Syndromes) -> u32
    ensures { result ≡ mask (λ k. not (eqb (syndrome_in syndromes k) 0)) chips }
{
    masks::of_chips(|k| of_chip(syndromes, k) != 0)
}

// Whether all nine are zero. Part by part: a derived `==` would need a value of zeros by name.
#[tactic(auto, unfolding(crate::specs::Syndromes::are_zero))]
pub fn are_zero(syndromes: Syndromes) -> bool
    ensures { result ≡ are_zero syndromes }
{
    syndromes.eight.even == 0 && syndromes.eight.odd == 0 && syndromes.last == 0
}

// The check bytes that chips 0 to 7 hold.
pub fn held(line: &[u8; LINE_BYTES]) -> Pair
    ensures even { result.even ≡ every_other (check_at line.now) 0 }
    ensures odd { result.odd ≡ every_other (check_at line.now) 1 }
{
    Pair {
        even: every_other(line, 0),
        odd: every_other(line, 1),
    }
}

// The check bytes of chip K and of every other chip above it, four of them, each in its lane.
#[tactic(auto, unfolding(cells::specs::Checks::every_other))]
fn every_other(line: &[u8; LINE_BYTES], k: usize) -> u64
    requires { k + 6 < chips }
    ensures { result ≡ every_other (check_at line.now) k }
{
    lanes::pack(
        u64::from(cells::check_at(line, k)),
        u64::from(cells::check_at(line, k + 2)),
        u64::from(cells::check_at(line, k + 4)),
        u64::from(cells::check_at(line, k + 6)),
    )
}

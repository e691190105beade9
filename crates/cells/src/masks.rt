// Masks of nine bits, bit K for chip K. A mask is a plain `u32`: C has it so, and `mask`, `in_mask` and the theorems over them speak of a
// number.
ghost use Rattle.std.specs.Prelude.{◌≡◌, ℕ, Bool, MatchOption, ◌-◌, ◌<◌, ◌*◌, ◌^◌};
ghost use Rattle.std.specs.Int.Count.{count_trailing_zeros};
ghost use Rattle.std.specs.Iterator.{at_most};
ghost use Rattle.cells.specs.Cells.{chips};
ghost use Rattle.cells.specs.Chips.{bit, in_mask, mask};
ghost use Rattle.cells.specs.Masks.{Takes};

use crate::CHIPS;

// The mask of chip K alone where a test holds, else of no chip. Built by shifts, and below tested for membership, forms that document 01
// names.
pub fn only_if(test: bool, k: usize) -> u32
    requires { k < chips }
    ensures { result ≡ bit test * 2 ^ k }
{
    if test { 1 << k } else { 0 }
}

// The mask of the chips that pass a test: that of `p`, where each call gives what `p` says of the chip.
pub fn of_chips<F: Fn(usize) -> bool>(test: F) -> u32
    requires { (k : ℕ) → k < chips → F.pre test k }
    ensures { (p : ℕ → Bool) → ((k : ℕ) (b : Bool) → k < chips → F.post test k b → b ≡ p k) → result ≡ mask p chips }
{
    let mut mask = 0;
    for k in 0..CHIPS {
        mask |= only_if(test(k), k);
    }
    mask
}

// Whether chip K is in a mask.
#[tactic(auto, using(std::proofs::lemmas::Nat::and_mask), unfolding(crate::specs::Chips::in_mask))]
pub fn member(mask: u32, k: usize) -> bool
    requires { k < chips }
    ensures { result ≡ in_mask mask k }
{
    (mask >> k) & 1 == 1
}

// The lowest chip of a mask. For none it is 32, the library's `trailing_zeros` in its clause: who asks has tested that there is one.
pub fn lowest(mask: u32) -> usize
    ensures { result ≡ count_trailing_zeros 32 mask }
{
    mask.trailing_zeros() as usize
}

// A mask without its lowest chip.
#[tactic(auto, using(crate::specs::MaskLaws::off_lowest))]
pub fn without_lowest(mask: u32) -> u32
    requires { 0 < mask }
    ensures { result ≡ mask - 2 ^ count_trailing_zeros 32 mask }
{
    mask & (mask - 1)
}

// The chips of a mask that are still to have their turn.
#[derive(Drop)]
pub struct ChipsLeft {
    pub rest: u32,
}

// The chips of a mask in turn, the lowest first.
pub fn chips(mask: u32) -> ChipsLeft
    ensures { result.rest ≡ mask }
{
    ChipsLeft { rest: mask }
}

impl Iterator for ChipsLeft {
    type Item = usize;

    ghost next_gives = { λ s r t. MatchOption r ((s.rest ≡ 0) × (t.rest ≡ 0)) (λ k. Takes s.rest k t.rest) };

    ghost remaining = { λ s. at_most s.rest };

    fn next(&mut self) -> Option<usize> {
        if self.rest == 0 {
            return None;
        }
        let k = lowest(self.rest);
        self.rest = without_lowest(self.rest);
        Some(k)
    }
}

// A word and a check byte for each chip, at the place of its number. Only the places that something was put at are looked at.
// Two arrays, since `AtPlaces`, `ChecksAt` and the theorems over them speak of each.
ghost use Rattle.std.specs.Prelude.{◌≡◌, ◌<◌, length, replicate, get_or, set};
ghost use Rattle.code.specs.Code.{check_of};
ghost use Rattle.cells.specs.Cells.{chips};

use crate::CHIPS;

#[derive(Clone, Copy)]
pub struct Places {
    pub words: [u64; CHIPS],
    pub checks: [u8; CHIPS],
    // A proof knows it of an array, but of one that was lent inside a struct no longer.
    ghost sizes: { (length words ≡ chips) × (length checks ≡ chips) },
}

impl Places {
    // Zeros at each chip's place.
    pub fn empty() -> Places
        ensures words { result.words ≡ replicate chips 0 }
        ensures checks { result.checks ≡ replicate chips 0 }
    {
        Places {
            words: [0; CHIPS],
            checks: [0; CHIPS],
        }
    }

    // Puts a word and its check byte at chip K's place.
    pub fn put(&mut self, k: usize, word: u64)
        requires { k < chips }
        ensures words { self.new.words ≡ set self.old.words k word }
        ensures checks { self.new.checks ≡ set self.old.checks k (check_of word) }
        ensures there { (get_or self.new.words k 0 ≡ word) × (get_or self.new.checks k 0 ≡ check_of word) }
    {
        self.words[k] = word;
        self.checks[k] = code::check_byte(word);
    }
}

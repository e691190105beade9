// A word and a check byte, held against what the functions of `code` say of them.
use code::{Mending, Status};
use trials::remainder;

#[derive(Clone, Copy, PartialEq, Eq)]
pub(super) struct Cell {
    pub(super) word: u64,
    pub(super) check: u8,
}

impl Cell {
    // The codeword of a word, by the bitwise CRC-8.
    pub(super) fn codeword(word: u64) -> Self {
        Cell {
            word,
            check: remainder(word, 0),
        }
    }

    // The same with the bit at a position inverted, if there is one: positions 0 to 7 are those of the check byte, 8 to 71 of the word.
    pub(super) fn inverted(self, position: Option<u8>) -> Self {
        let Cell { word, check } = self;
        match position {
            Some(bit @ 0..8) => Cell {
                word,
                check: check ^ (1 << bit),
            },
            Some(bit @ 8..72) => Cell {
                word: word ^ (1 << (bit - 8)),
                check,
            },
            _ => self,
        }
    }

    // The position of the bit that, inverted, leaves a codeword.
    pub(super) fn position_by_trying(self) -> Option<u8> {
        (0..72).find(|i| self.inverted(Some(*i)).remainder() == 0)
    }

    fn remainder(self) -> u8 {
        remainder(self.word, self.check)
    }

    // What `code` says of these bytes.
    pub(super) fn syndrome(self) -> u8 {
        code::syndrome(self.word, self.check)
    }

    // By document 01, "A form for each place", `code` gives 255 for no position.
    pub(super) fn position(self) -> Option<u8> {
        match code::position(self.syndrome()) {
            255 => None,
            position => Some(position),
        }
    }

    // Whether the check byte of the word and the syndrome are those of the bitwise CRC-8.
    pub(super) fn agrees(self) -> bool {
        code::check_byte(self.word) == remainder(self.word, 0)
            && self.syndrome() == self.remainder()
    }

    // Whether mending gives what is due, and the status that the bitwise CRC-8 and the position of the bit to invert ask for.
    pub(super) fn mends_to(self, due: Cell, position: Option<u8>) -> bool {
        let syndrome = code::syndrome(self.word, self.check);
        let mending = code::mend(self.word, self.check, syndrome);
        let status = if self.remainder() == 0 {
            Status::Sound
        } else if position.is_some() {
            Status::Mended
        } else {
            Status::Beyond
        };
        let Cell { word, check } = due;
        mending
            == (Mending {
                word,
                check,
                status,
            })
            && code::is_beyond(mending.status) == (status == Status::Beyond)
    }
}

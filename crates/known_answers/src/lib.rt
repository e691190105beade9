// Known answers of the code inside a chip: document 01's bench examples that are marked P, one table and one theorem over it. Beside them,
// in `specs/FormerTable.antt`, the table of positions that the code had before document 02, Req 03.
#![tactic(auto)]

ghost use Rattle.std.specs.Prelude.{map, ◌<◌, IfSome};
ghost use Rattle.code.specs.Lists.{Every};
ghost use Rattle.known_answers.specs.Marked.{Marked, numbers};

// A word, its check byte, a given check byte; of the word beside the given one the syndrome, its position and the word after mending. A
// tuple, since a row with named fields takes eight lines of the table.
pub type Example = (u64, u8, u8, u8, Option<u8>, u64);

// The rows are document 01's cases, and each holds. The program `vectors_code` walks the same rows.
pub fn table() -> [Example; 12]
    ensures cases { Marked (map numbers result) }
    ensures positions { Every (λ row. IfSome row.4 (λ p. p < 72)) result }
{
    TABLE
}

// Eight words with their check bytes; then word 0 beside four other check bytes: 07h is mended, 03h and 79h have no
// position, so that nothing is inverted, and BFh is the syndrome of position 71.
const TABLE: [Example; 12] = [
    (0x0, 0x00, 0x00, 0, None, 0x0),
    (0x1, 0x07, 0x07, 0, None, 0x1),
    (0x80, 0x89, 0x89, 0, None, 0x80),
    (0xff, 0xf3, 0xf3, 0, None, 0xff),
    (0x100, 0x15, 0x15, 0, None, 0x100),
    (0x0100000000000000, 0x13, 0x13, 0, None, 0x0100000000000000),
    (0x8000000000000000, 0xbf, 0xbf, 0, None, 0x8000000000000000),
    (0xffffffffffffffff, 0xd7, 0xd7, 0, None, 0xffffffffffffffff),
    (0x0, 0x00, 0x07, 0x07, Some(8), 0x1),
    (0x0, 0x00, 0x03, 0x03, None, 0x0),
    (0x0, 0x00, 0x79, 0x79, None, 0x0),
    (0x0, 0x00, 0xbf, 0xbf, Some(71), 0x8000000000000000),
];

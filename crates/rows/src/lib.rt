// The diagnosis of a row (document 02, Req 04; inter-line diagnosis in source document 000): which chip is blamed, by the words flagged on
// the other lines, and its word. Passes over the other lines renew no catch-word and write nothing.
#![tactic(auto)]

ghost use Rattle.std.specs.Prelude.{◌≡◌, cond, ◌+◌, ◌-◌, ◌*◌, ◌≤◌, ◌<◌, min, eqb, leb, length, get_or, IfSome};
ghost use Rattle.std.specs.Int.Bits.{bit_and};
ghost use Rattle.std.specs.Int.Count.{ones};
ghost use Rattle.code.specs.Lists.{up_from, without, sum_of};
ghost use Rattle.cells.specs.Chips.{of_chips, xor_all, bit, mask, in_mask, AtPlaces};
ghost use Rattle.cells.specs.Cells.{chips, line_bytes};
ghost use Rattle.passes.specs.Passes.{is_flagged, pass_three};
ghost use Rattle.line.specs.Visit.{outcome_by, word_by};
ghost use Rattle.line.specs.Found.{ChecksAt, ChecksIfAnswered};
ghost use Rattle.line.specs.declared.Finding.TheVariants.{Undecided};
ghost use Rattle.memory.specs.Lines.{line_at};
ghost use Rattle.rows.specs.Rows.{row_lines, row_first, evidence_of};
ghost use Rattle.rows.specs.Counts.{AtMost};
ghost use Rattle.rows.specs.Blamed.{IsLowest, IsRebuilt};

use cells::places::Places;
use cells::{CHIPS, masks};
use line::Outcome;

// The lines of a row; the last may be shorter.
const ROW_LINES: u32 = 128;

// How a visit ends, and the passes made over the other lines of the row.
#[derive(Clone, Copy)]
pub struct Decision {
    pub outcome: Outcome,
    pub passes: u32,
}

// The diagnosis for a line that its own bytes leave undecided. The flagged chips are given with their words of pass three, and what all
// nine words xor to; a blamed chip's word and check byte are put at its place. Memory, lines, line and catch-words stay four parameters, as
// `evidence_of` and `report_in` take them.
#[tactic(auto, using(crate::proofs::RowLaws::first_le))]
pub fn diagnose(
    memory: &[u8],
    lines: u32,
    line: u32,
    catch_words: &[u64; CHIPS],
    flagged: u32,
    xor: u64,
    places: &mut Places,
) -> Decision
    requires sizes { (line_bytes * lines ≤ length memory.now) × (line < lines) }
    requires flagged { flagged ≡ mask (is_flagged (line_at memory.now line) catch_words.now) chips }
    requires xor { xor ≡ xor_all (pass_three (line_at memory.now line) catch_words.now) chips }
    requires words { AtPlaces (is_flagged (line_at memory.now line) catch_words.now) (pass_three (line_at memory.now line) catch_words.now) places.old.words chips }
    requires checks { ChecksAt (is_flagged (line_at memory.now line) catch_words.now) places.old.words places.old.checks }
    ensures outcome { result.outcome ≡ outcome_by (Undecided xor) (evidence_of lines memory.now line catch_words.now) (line_at memory.now line) catch_words.now }
    ensures passes { result.passes ≡ 2 * (evidence_of lines memory.now line catch_words.now).others }
    ensures words { AtPlaces (is_flagged (line_at memory.now line) catch_words.now) (word_by (Undecided xor) (evidence_of lines memory.now line catch_words.now) (line_at memory.now line) catch_words.now) places.new.words chips }
    ensures checks { ChecksIfAnswered result.outcome (is_flagged (line_at memory.now line) catch_words.now) places.new.words places.new.checks }
{
    let first = first_of(line);
    let end = end_of(lines, first);
    let others = end - first - 1;
    let counts = flagged_words(memory, first, end, line, catch_words);
    let blamed = blamed_chip(flagged, reaching(&counts, others), others);
    let outcome = rebuild(blamed, xor, places);
    Decision {
        outcome,
        passes: 2 * others,
    }
}

// The first line of the row of a line.
#[tactic(auto, unfolding(crate::specs::Rows::row_first))]
fn first_of(line: u32) -> u32
    ensures { result ≡ row_first line }
{
    ROW_LINES * (line / ROW_LINES)
}

// The line after the last of a row, by its first line and how many lines the rank has.
fn end_of(lines: u32, first: u32) -> u32
    requires { first ≤ lines }
    ensures { result ≡ first + min row_lines (lines - first) }
{
    first + ROW_LINES.min(lines - first)
}

// For each chip, in how many lines of a row other than the wanted one its word is flagged.
fn flagged_words(
    memory: &[u8],
    first: u32,
    end: u32,
    line: u32,
    catch_words: &[u64; CHIPS],
) -> [u32; CHIPS]
    requires { (line_bytes * end ≤ length memory.now) × (first ≤ end) × (end ≤ first + row_lines) }
    ensures counts { result ≡ of_chips (λ k. sum_of (λ j. bit (is_flagged (line_at memory.now j) catch_words.now k)) (without line (up_from first (end - first)))) chips }
    ensures few { AtMost row_lines result }
{
    let mut counts = [0; CHIPS];
    // A `filter` of the range would say no more.
    for other in first..end {
        if other != line {
            add(&mut counts, memory::flagged(memory, other, catch_words));
        }
    }
    counts
}

// Counts each chip of a mask. All nine counts are gone through: by the mask's chips alone a row in which each line has nine of them takes a
// quarter longer. Most lines have none.
fn add(counts: &mut [u32; CHIPS], flagged: u32)
    requires { AtMost row_lines counts.old }
    ensures { counts.new ≡ of_chips (λ k. get_or counts.old k 0 + bit (in_mask flagged k)) chips }
{
    if flagged == 0 {
        return;
    }
    for (k, count) in counts.iter_mut().enumerate() {
        *count += u32::from(masks::member(flagged, k));
    }
}

// The mask of the chips of which ten times the count reaches the number of other lines.
fn reaching(counts: &[u32; CHIPS], others: u32) -> u32
    requires { AtMost row_lines counts.now }
    ensures { result ≡ mask (λ k. leb others (10 * get_or counts.now k 0)) chips }
{
    masks::of_chips(|k| others <= 10 * counts[k])
}

// The blamed chip, if any: it is flagged on the wanted line and reaches, there is another line, and no other chip reaches.
fn blamed_chip(flagged: u32, reaching: u32, others: u32) -> Option<usize>
    ensures { IsLowest (cond (eqb others 0) 0 (cond (eqb (ones reaching) 1) (bit_and flagged reaching) 0)) result }
{
    if others == 0 || reaching.count_ones() != 1 {
        return None;
    }
    masks::chips(flagged & reaching).next()
}

// The blamed chip's word is the xor of the other eight: what it sent is taken off the xor of all nine. Nobody blamed means 21.
fn rebuild(blamed: Option<usize>, xor: u64, places: &mut Places) -> Outcome
    requires { IfSome blamed (λ k. k < chips) }
    ensures { IsRebuilt blamed xor places.old places.new result }
{
    let Some(k) = blamed else {
        return Outcome::Uncorrectable;
    };
    places.put(k, xor ^ places.words[k]);
    Outcome::Answered
}

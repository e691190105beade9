// One line of the lent memory (document 01, "The rank"): its 81 bytes are lent on to crates `cells`, `passes` and `line`. Where they are
// written each function cuts them out: one that gives them as `line_at` does, but to be written, got no proof of what is left in the
// memory.
#![tactic(auto)]

ghost use Rattle.std.specs.Prelude.{◌≡◌, cond, ◌+◌, ◌*◌, ◌^◌, ◌≤◌, ◌<◌, length, get_or, replicate};
ghost use Rattle.cells.specs.Cells.{chips, line_bytes, chip_at, codeword, line_word, stored, line_of};
ghost use Rattle.cells.specs.Chips.{joined, mask, in_mask, AtPlaces};
ghost use Rattle.passes.specs.Passes.{is_flagged};
ghost use Rattle.passes.specs.Scan.{is_clean};
ghost use Rattle.line.specs.Visit.{own_word, if_answered, examined_of};
ghost use Rattle.line.specs.Found.{ChecksIfAnswered, ChecksUnlessRefused};
ghost use Rattle.memory.specs.Lines.{line_at, with_line, faulted};

use cells::places::Places;
use cells::{CHIP_BYTES, CHIPS, DATA_BYTES, LINE_BYTES};
use line::{Examined, Outcome};
use passes::{first_two, scan};

// Clears the memory.
pub fn clear(memory: &mut [u8])
    ensures { memory.new ≡ replicate (length memory.old) 0 }
{
    memory.fill(0);
}

// Where the bytes of a line begin. That they lie in the memory is asked of every function below: a memory and a line's number come from C
// apart, and no value has both.
fn start_of(line: u32) -> usize
    ensures { result ≡ line_bytes * line }
{
    LINE_BYTES * line as usize
}

// The bytes of a line.
fn line_at(memory: &[u8], line: u32) -> &[u8; LINE_BYTES]
    requires { line_bytes * line + line_bytes ≤ length memory.now }
    ensures { result.now ≡ line_at memory.now line }
{
    let start = start_of(line);
    memory[start..start + LINE_BYTES].try_into().unwrap()
}

// Lays the nine codewords of 64 bytes in a line.
pub fn lay(memory: &mut [u8], line: u32, bytes: &[u8; DATA_BYTES])
    requires { line_bytes * line + line_bytes ≤ length memory.old }
    ensures { memory.new ≡ with_line memory.old line (stored (line_word bytes.now)) }
{
    let (_, rest) = memory.split_at_mut(start_of(line));
    let (part, _) = rest.split_at_mut(LINE_BYTES);
    cells::lay_line(part.as_mut_array().unwrap(), bytes);
}

// Whether a line is clean. A visit to it is then answered in one pass and changes nothing.
pub fn is_clean(memory: &[u8], line: u32, catch_words: &[u64; CHIPS]) -> bool
    requires { line_bytes * line + line_bytes ≤ length memory.now }
    ensures { result ≡ is_clean (line_at memory.now line) catch_words.now }
{
    scan::is_clean(line_at(memory, line), catch_words)
}

// Passes one and two of a line: the mask of the flagged chips.
pub fn flagged(memory: &[u8], line: u32, catch_words: &[u64; CHIPS]) -> u32
    requires { line_bytes * line + line_bytes ≤ length memory.now }
    ensures { result ≡ mask (is_flagged (line_at memory.now line) catch_words.now) chips }
{
    first_two::flagged(line_at(memory, line), catch_words)
}

// Steps 1 to 5 of a visit, by the line's own bytes.
pub fn examine(
    memory: &[u8],
    line: u32,
    catch_words: &[u64; CHIPS],
    places: &mut Places,
) -> Examined
    requires { line_bytes * line + line_bytes ≤ length memory.now }
    ensures examined { result ≡ examined_of (line_at memory.now line) catch_words.now }
    ensures words { AtPlaces (is_flagged (line_at memory.now line) catch_words.now) (own_word (line_at memory.now line) catch_words.now) places.new.words chips }
    ensures checks { ChecksUnlessRefused result.finding (is_flagged (line_at memory.now line) catch_words.now) places.new.words places.new.checks }
{
    line::examine(line_at(memory, line), catch_words, places)
}

// Step 6 of a visit: only an answered line is written back.
pub fn write_answered(memory: &mut [u8], line: u32, outcome: Outcome, flagged: u32, places: &Places)
    requires size { line_bytes * line + line_bytes ≤ length memory.old }
    requires flagged { flagged < 2 ^ chips }
    requires checks { ChecksIfAnswered outcome (in_mask flagged) places.now.words places.now.checks }
    ensures { memory.new ≡ with_line memory.old line (if_answered outcome
        (joined (λ k. cond (in_mask flagged k) (codeword (get_or places.now.words k 0)) (chip_at (line_at memory.old line) k)) chips)
        (line_at memory.old line)) }
{
    let (_, rest) = memory.split_at_mut(start_of(line));
    let (part, _) = rest.split_at_mut(LINE_BYTES);
    line::write_answered(part.as_mut_array().unwrap(), outcome, flagged, places);
}

// Puts a line's 64 bytes in a buffer.
pub fn copy(memory: &[u8], line: u32, buffer: &mut [u8; DATA_BYTES])
    requires { line_bytes * line + line_bytes ≤ length memory.now }
    ensures { buffer.new ≡ line_of (line_at memory.now line) }
{
    cells::read_line(line_at(memory, line), buffer);
}

// Xors a pattern into one chip of a line.
pub fn xor_into(memory: &mut [u8], line: u32, chip: u32, pattern: &[u8; CHIP_BYTES])
    requires { (line_bytes * line + line_bytes ≤ length memory.old) × (chip < chips) }
    ensures { memory.new
        ≡ with_line memory.old line (faulted (line_at memory.old line) chip pattern.now) }
{
    let (_, rest) = memory.split_at_mut(start_of(line));
    let (part, _) = rest.split_at_mut(LINE_BYTES);
    cells::xor_into(part.as_mut_array().unwrap(), chip as usize, pattern);
}

// The visit of an accepted read.
ghost use Rattle.std.specs.Prelude.{◌≡◌, ◌+◌, ◌*◌, ◌≤◌, ◌<◌, length};
ghost use Rattle.cells.specs.Cells.{line_bytes, line_of};
ghost use Rattle.line.specs.Visit.{if_answered};
ghost use Rattle.memory.specs.Lines.{line_at, with_line};
ghost use Rattle.rows.specs.Rows.{report_in, bytes_in};
ghost use Rattle.visits.specs.Visits.{found_line, words_after, visited_of};

use crate::visit;
use cells::{CHIPS, DATA_BYTES};
use line::{Outcome, Report};

// What a read reports: a refusal by its number in document 01, 0 for none, as a read returns it and `visited_of` has it, the passes made
// and the two masks.
#[derive(Clone, Copy)]
pub struct Visited {
    pub refusal: u32,
    pub passes: u32,
    pub flagged: u32,
    pub collisions: u32,
}

impl From<Report> for Visited {
    ghost from_gives = { λ report visited. visited ≡ visited_of report };

    #[tactic(auto, unfolding(crate::specs::Visits::visited_of))]
    fn from(report: Report) -> Visited {
        Visited {
            refusal: line::refusal(report.outcome),
            passes: report.passes,
            flagged: report.flagged,
            collisions: report.collisions,
        }
    }
}

// Visits a line and puts it in a buffer if it is answered. Catch-words move in their place; registers and totals are left to the caller.
pub fn visit_into(
    catch_words: &mut [u64; CHIPS],
    memory: &mut [u8],
    lines: u32,
    line: u32,
    buffer: &mut [u8; DATA_BYTES],
) -> Visited
    requires { (line_bytes * lines ≤ length memory.old) × (line < lines) }
    ensures result { result ≡ visited_of (report_in lines memory.old line catch_words.old) }
    ensures catch_words { catch_words.new
        ≡ words_after (report_in lines memory.old line catch_words.old) catch_words.old }
    ensures memory { memory.new
        ≡ with_line memory.old line (bytes_in lines memory.old line catch_words.old) }
    ensures buffer { buffer.new
        ≡ if_answered (report_in lines memory.old line catch_words.old).outcome
        (found_line lines memory.old line catch_words.old) buffer.old }
{
    // A visit would change nothing.
    if memory::is_clean(memory, line, catch_words) {
        memory::copy(memory, line, buffer);
        return Visited {
            refusal: 0,
            passes: 1,
            flagged: 0,
            collisions: 0,
        };
    }
    let report = visit(catch_words, memory, lines, line);
    copy_answered(report.outcome, memory, line, buffer);
    report.into()
}

// Puts a line's 64 bytes in a buffer if the visit to it is answered.
fn copy_answered(outcome: Outcome, memory: &[u8], line: u32, buffer: &mut [u8; DATA_BYTES])
    requires { line_bytes * line + line_bytes ≤ length memory.now }
    ensures { buffer.new ≡ if_answered outcome (line_of (line_at memory.now line)) buffer.old }
{
    if let Outcome::Answered = outcome {
        memory::copy(memory, line, buffer);
    }
}

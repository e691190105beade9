// Visits to lines of the lent memory with the record (document 01, "The calls"; document 02, Req 01): the one visit, and over it an
// accepted read and the visits of an accepted patrol. Both ask first whether a line is clean (`memory::is_clean`): a visit would then
// change nothing.
#![tactic(auto)]

ghost use Rattle.std.specs.Prelude.{◌≡◌, ◌*◌, ◌≤◌, ◌<◌, length};
ghost use Rattle.cells.specs.Cells.{line_bytes};
ghost use Rattle.memory.specs.Lines.{with_line};
ghost use Rattle.rows.specs.Rows.{report_in, bytes_in};
ghost use Rattle.visits.specs.Visits.{words_after};

use cells::CHIPS;
use line::Report;
use record::Rank;

pub mod read;
pub mod sweep;

// What a read returns: a refusal by its number in document 01, 0 for none, since an exported struct can't hold an enum, the passes made,
// the flagged and collision masks, bit K for chip K, and the record.
#[repr(C)]
#[derive(Clone, Copy)]
pub struct ReadResult {
    pub refusal: u32,
    pub passes: u32,
    pub flagged: u32,
    pub collisions: u32,
    pub rank: Rank,
}

// Visits a line: steps 1 to 6 in the memory and, in their place, for the catch-words; a record by value would be copied. The totals are
// left to the caller (`record::count`), and so are the registers: a read sets them (`record::set_registers`), a patrol makes its record
// from the catch-words (`record::accepted`).
pub fn visit(catch_words: &mut [u64; CHIPS], memory: &mut [u8], lines: u32, line: u32) -> Report
    requires { (line_bytes * lines ≤ length memory.old) × (line < lines) }
    ensures report { result ≡ report_in lines memory.old line catch_words.old }
    ensures catch_words { catch_words.new
        ≡ words_after (report_in lines memory.old line catch_words.old) catch_words.old }
    ensures memory { memory.new
        ≡ with_line memory.old line (bytes_in lines memory.old line catch_words.old) }
{
    let report = steps::visit(memory, lines, line, catch_words);
    let refusal = line::refusal(report.outcome);
    record::move_words(catch_words, refusal, report.collisions);
    report
}

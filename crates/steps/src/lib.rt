// A visit to a line of the lent memory (document 01, "A visit to a line"), steps 1 to 6. Where the line's own bytes leave the outcome
// undecided, its row is diagnosed (document 02, Req 04, crate `rows`).
#![tactic(auto)]

ghost use Rattle.std.specs.Prelude.{◌≡◌, ◌+◌, ◌*◌, ◌≤◌, ◌<◌, length};
ghost use Rattle.cells.specs.Chips.{AtPlaces};
ghost use Rattle.cells.specs.Cells.{chips, line_bytes};
ghost use Rattle.passes.specs.Passes.{is_flagged};
ghost use Rattle.line.specs.Visit.{finding_of, own_word, outcome_of, row_passes, examined_of};
ghost use Rattle.line.specs.Found.{ChecksIfAnswered, ChecksUnlessRefused};
ghost use Rattle.memory.specs.Lines.{line_at, with_line};
ghost use Rattle.rows.specs.Rows.{evidence_of, report_in, word_in, bytes_in};

use cells::CHIPS;
use cells::places::Places;
use line::{Examined, Finding, Report};
use rows::Decision;

// Visits a line of a memory of so many lines: steps 1 to 6. What the report does to the record is left to the caller.
pub fn visit(memory: &mut [u8], lines: u32, line: u32, catch_words: &[u64; CHIPS]) -> Report
    requires { (line_bytes * lines ≤ length memory.old) × (line < lines) }
    ensures report { result ≡ report_in lines memory.old line catch_words.now }
    ensures memory { memory.new
        ≡ with_line memory.old line (bytes_in lines memory.old line catch_words.now) }
{
    let mut places = Places::empty();
    // Steps 1 to 5.
    let examined = memory::examine(memory, line, catch_words, &mut places);
    let decision = decide(memory, lines, line, catch_words, examined, &mut places);
    let outcome = decision.outcome;
    // Step 6.
    memory::write_answered(memory, line, outcome, examined.flagged, &places);
    Report {
        outcome,
        passes: examined.passes + decision.passes,
        flagged: examined.flagged,
        collisions: examined.collisions,
    }
}

// How the visit ends: by the line's own bytes, or by the diagnosis of its row.
fn decide(
    memory: &[u8],
    lines: u32,
    line: u32,
    catch_words: &[u64; CHIPS],
    examined: Examined,
    places: &mut Places,
) -> Decision
    requires sizes { (line_bytes * lines ≤ length memory.now) × (line < lines) }
    requires examined { examined ≡ examined_of (line_at memory.now line) catch_words.now }
    requires words { AtPlaces (is_flagged (line_at memory.now line) catch_words.now) (own_word (line_at memory.now line) catch_words.now) places.old.words chips }
    requires checks { ChecksUnlessRefused examined.finding (is_flagged (line_at memory.now line) catch_words.now) places.old.words places.old.checks }
    ensures outcome { result.outcome ≡ outcome_of (evidence_of lines memory.now line catch_words.now) (line_at memory.now line) catch_words.now }
    ensures passes { result.passes ≡ row_passes (finding_of (line_at memory.now line) catch_words.now) (evidence_of lines memory.now line catch_words.now) }
    ensures words { AtPlaces (is_flagged (line_at memory.now line) catch_words.now) (word_in lines memory.now line catch_words.now) places.new.words chips }
    ensures checks { ChecksIfAnswered result.outcome (is_flagged (line_at memory.now line) catch_words.now) places.new.words places.new.checks }
{
    match examined.finding {
        Finding::Decided(outcome) => Decision { outcome, passes: 0 },
        Finding::Undecided(xor) => rows::diagnose(
            memory,
            lines,
            line,
            catch_words,
            examined.flagged,
            xor,
            places,
        ),
    }
}

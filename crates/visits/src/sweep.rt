// The visits of a patrol.
ghost use Rattle.std.specs.Prelude.{◌≡◌, true, ◌+◌, ◌*◌, ◌^◌, ◌≤◌, ◌<◌, min, length};
ghost use Rattle.std.specs.Int.Count.{ones};
ghost use Rattle.cells.specs.Cells.{line_bytes};
ghost use Rattle.record.specs.Record.{line_limit, task_limit};
ghost use Rattle.visits.specs.Runs.{outs, end};
ghost use Rattle.code.specs.Lists.{up_from};
ghost use Rattle.visits.specs.Visits.{device, visit_of, refused_by, rewritten_by, refused_in, rewritten_in};

use crate::visit;
use line::{Outcome, Report};
use record::Rank;

// What a patrol has counted so far: the lines refused and the words rewritten.
#[derive(Clone, Copy, PartialEq, Eq)]
pub struct Counts {
    pub refused: u32,
    pub rewritten: u32,
}

impl Counts {
    // Counts one visit more, by its report.
    pub fn add(&mut self, report: Report)
        requires { (self.old.refused + 1 < 2 ^ 32) × (self.old.rewritten + ones report.flagged < 2 ^ 32) }
        ensures refused { self.new.refused ≡ self.old.refused + refused_by report.outcome }
        ensures rewritten { self.new.rewritten ≡ self.old.rewritten + rewritten_by report.outcome report.flagged }
    {
        if let Outcome::Answered = report.outcome {
            self.rewritten += report.flagged.count_ones();
        } else {
            self.refused += 1;
        }
    }
}

// What the visits of a patrol come to: the counts, and the record.
#[derive(Clone, Copy)]
pub struct Tally {
    pub counts: Counts,
    pub rank: Rank,
}

// How many lines a patrol visits: the budget, or the lines left if they are fewer.
pub fn allowance(budget: u32, left: u32) -> u32
    ensures { result ≡ min budget left }
{
    budget.min(left)
}

// Visits n lines from a first line upwards, for one task. A refused line doesn't stop it.
pub fn sweep(rank: Rank, memory: &mut [u8], task: u32, first: u32, n: u32) -> Tally
    requires { (rank.enable ≡ true) × (rank.registers ≡ rank.catch_words)
        × (line_bytes * rank.lines ≤ length memory.old) × (task < task_limit) × (first + n ≤ rank.lines) × (rank.lines ≤ line_limit) }
    ensures refused { result.counts.refused ≡ refused_in (outs (visit_of task) (device rank memory.old) (up_from first n)) }
    ensures rewritten { result.counts.rewritten ≡ rewritten_in (outs (visit_of task) (device rank memory.old) (up_from first n)) }
    ensures after { device result.rank memory.new
        ≡ end (visit_of task) (device rank memory.old) (up_from first n) }
{
    let lines = rank.lines;
    let mut catch_words = rank.catch_words;
    let mut totals = rank.repairs;
    let mut counts = Counts {
        refused: 0,
        rewritten: 0,
    };
    for line in first..first + n {
        // A visit to a clean line would change nothing, and there is nothing to count.
        if !memory::is_clean(memory, line, &catch_words) {
            let report = visit(&mut catch_words, memory, lines, line);
            let refusal = line::refusal(report.outcome);
            record::count(&mut totals, task, refusal, report.flagged);
            counts.add(report);
        }
    }
    Tally {
        counts,
        rank: record::accepted(lines, catch_words, totals),
    }
}

// The record (document 01, "The rank"), its limits and its fresh value, and what boot, a visit and renew make of it.
#![tactic(auto)]

ghost use Rattle.std.specs.Prelude.{◌≡◌, ◌+◌, ◌/◌, ◌<◌, ◌≤◌, min, cond, length, if◌then◌else◌, ◌==◌, slice_index};
ghost use Rattle.cells.specs.Cells.{chips, line_bytes};
ghost use Rattle.record.specs.Record.{line_limit, task_limit, total_limit, booted, accepted, grown, moved, moved_by, counted, counted_by, renewed, fresh, is_line_count, is_task};

use cells::{CHIPS, LINE_BYTES, masks};

// The record, held by value: N, the Enable bit, the catch-words as the controller knows them, the registers as the chips hold them, and a
// repair total for each task.
#[repr(C)]
#[derive(Clone, Copy, PartialEq, Eq)]
pub struct Rank {
    pub lines: u32,
    pub enable: bool,
    pub catch_words: [u64; CHIPS],
    pub registers: [u64; CHIPS],
    pub repairs: [u32; 8],
}

impl Rank {
    // The most lines that a rank can have.
    pub const LINE_LIMIT: u32 = 65536;

    // Tasks are 0 to 7.
    pub const TASK_LIMIT: u32 = 8;

    // Where a repair total stops: a saturating sum goes no further.
    pub const REPAIR_LIMIT: u32 = u32::MAX;

    // What a colliding chip's catch-word grows by.
    pub const CATCH_WORD_STEP: u64 = 0x9E37_79B9_7F4A_7C15;

    // Whether a rank can have this many lines.
    pub fn is_line_count(lines: u32) -> bool
        ensures { result ≡ is_line_count lines }
    {
        (1..=Rank::LINE_LIMIT).contains(&lines)
    }

    // Whether this is one of the tasks.
    pub fn is_task(task: u32) -> bool
        ensures { result ≡ is_task task }
    {
        task < Rank::TASK_LIMIT
    }

    // Every field zero.
    pub fn fresh() -> Self
        ensures { result ≡ fresh }
    {
        Rank {
            lines: 0,
            enable: false,
            catch_words: [0u64; CHIPS],
            registers: [0u64; CHIPS],
            repairs: [0u32; 8],
        }
    }
}

// Where a total stops is where a saturating sum of 32 bits does, by which `count` adds.
const _: () = prove!(Rank::REPAIR_LIMIT == u32::MAX);

// The record of an accepted boot. The catch-words are a slice, as C lends them.
pub fn booted(memory: &[u8], catch_words: &[u64]) -> Rank
    requires { (length memory.now / line_bytes ≤ line_limit) × (length catch_words.now ≡ chips) }
    ensures { result ≡ booted (length memory.now / line_bytes) catch_words.now }
{
    let nine: [u64; CHIPS] = catch_words.try_into().unwrap();
    accepted((memory.len() / LINE_BYTES) as u32, nine, [0; 8])
}

// The record with one chip's catch-word and register set.
pub fn renewed(rank: Rank, chip: u32, catch_word: u64) -> Rank
    requires { chip < chips }
    ensures { result ≡ renewed rank chip catch_word }
{
    let k = chip as usize;
    let mut after = rank;
    after.catch_words[k] = catch_word;
    after.registers[k] = catch_word;
    after
}

// The record of an accepted call, put together from N, the catch-words and the totals: Enable is set (12) and the registers equal the
// catch-words (14).
pub fn accepted(lines: u32, catch_words: [u64; CHIPS], totals: [u32; 8]) -> Rank
    ensures { result ≡ accepted lines catch_words totals }
{
    Rank {
        lines,
        enable: true,
        catch_words,
        registers: catch_words,
        repairs: totals,
    }
}

// The record as it came, put together from its fields: the compiler then makes one copy less of it. Arrays are named first: a field that is
// an array, stored as it stands, gets no proof.
pub fn kept(rank: Rank) -> Rank
    ensures { result ≡ rank }
{
    let catch_words = rank.catch_words;
    let registers = rank.registers;
    let repairs = rank.repairs;
    Rank {
        lines: rank.lines,
        enable: rank.enable,
        catch_words,
        registers,
        repairs,
    }
}

// Step 6 on the catch-words, in their place, by the number of the visit's outcome: an answer moves those of the colliding chips. The number
// is not an `Outcome`, since the clauses of this and of `count` hold for every number.
pub fn move_words(words: &mut [u64; CHIPS], refusal: u32, collisions: u32)
    ensures { words.new ≡ moved_by refusal collisions words.old }
{
    if refusal != 0 || collisions == 0 {
        return;
    }
    for (k, word) in words.iter_mut().enumerate() {
        if masks::member(collisions, k) {
            *word = word.wrapping_add(Rank::CATCH_WORD_STEP);
        }
    }
}

// Step 6 on the registers, in their place: where chips collide they are set to the catch-words after the visit, which they equalled before.
pub fn set_registers(registers: &mut [u64; CHIPS], catch_words: [u64; CHIPS], collisions: u32)
    ensures { registers.new ≡ cond (collisions == 0) registers.old catch_words }
{
    if collisions != 0 {
        *registers = catch_words;
    }
}

// Step 6 on the eight totals, in their place, by the number of the visit's outcome: an answer counts the flagged chips for the task.
pub fn count(totals: &mut [u32; 8], task: u32, refusal: u32, flagged: u32)
    requires { task < task_limit }
    ensures { totals.new ≡ counted_by refusal task flagged totals.old }
{
    if refusal != 0 || flagged == 0 {
        return;
    }
    let repairs = flagged.count_ones();
    // Each total is stored, most as they were: a store at an index that is known only at run time would be waited for by the loads of the
    // record after it.
    for (i, total) in totals.iter_mut().enumerate() {
        let more = if i == task as usize { repairs } else { 0 };
        *total = total.saturating_add(more);
    }
}

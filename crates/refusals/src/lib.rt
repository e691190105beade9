// The refusals of each call, in document 01's order with document 02's numbers in it. A record is passed by value: where it was lent, the
// compiler copied it once more in a read, which took 6 % longer.
#![tactic(auto)]

ghost use Rattle.std.specs.Prelude.{◌≡◌};
ghost use Rattle.refusals.specs.Numbers.{number_of, number_in};
ghost use Rattle.refusals.specs.Refusals.{buffer_out, chip_out, memory_out, not_ready, memory_differs, register_differs, refused_if, state_refusals, line_refusals, first_of, boot_refusal, write_refusal, read_tests, patrol_refusal, renew_refusal, fault_refusal};

use cells::{CHIP_BYTES, CHIPS, DATA_BYTES, LINE_BYTES};
use record::Rank;

// What a call's tests refuse, each with its number in document 01's two tables or document 02. 20 and 21 are a visit's: `line::Outcome` has
// them.
#[derive(Clone, Copy, Debug, PartialEq, Eq)]
pub enum Refusal {
    Line = 1,
    Buffer = 2,
    Chip = 3,
    Pattern = 4,
    CatchWords = 5,
    BootMemory = 11,
    NotReady = 12,
    Memory = 13,
    Register = 14,
    Task = 31,
}

impl From<Refusal> for u32 {
    ghost from_gives = { λ refusal number. number ≡ number_of refusal };

    fn from(refusal: Refusal) -> u32 {
        refusal as u32
    }
}

// Of boot: 11, 5.
pub fn of_boot(memory: &[u8], catch_words: &[u64]) -> Result<(), Refusal>
    ensures { number_in result ≡ boot_refusal memory.now catch_words.now }
{
    refuse_if(memory_out(memory), Refusal::BootMemory)?;
    refuse_if(catch_words.len() != CHIPS, Refusal::CatchWords)
}

// Of write: 12, 13, 14, 1, 2.
pub fn of_write(rank: Rank, memory: &[u8], line: u32, buffer: &[u8]) -> Result<(), Refusal>
    ensures { number_in result ≡ write_refusal rank memory.now line buffer.now }
{
    of_line(rank, memory, line)?;
    refuse_if(buffer_out(buffer), Refusal::Buffer)
}

// Of read: 12, 13, 14, 31, 1, 2.
pub fn of_read(
    rank: Rank,
    memory: &[u8],
    task: u32,
    line: u32,
    buffer: &[u8],
) -> Result<(), Refusal>
    ensures { number_in result ≡ read_tests rank memory.now task line buffer.now }
{
    of_patrol(rank, memory, task, line)?;
    refuse_if(buffer_out(buffer), Refusal::Buffer)
}

// Of patrol, and the tests that read begins with: 12, 13, 14, 31, 1.
pub fn of_patrol(rank: Rank, memory: &[u8], task: u32, first: u32) -> Result<(), Refusal>
    ensures { number_in result ≡ patrol_refusal rank memory.now task first }
{
    of_state(rank, memory)?;
    refuse_if(!Rank::is_task(task), Refusal::Task)?;
    refuse_if(rank.lines <= first, Refusal::Line)
}

// Of renew: 12, 14, 3.
pub fn of_renew(rank: Rank, chip: u32) -> Result<(), Refusal>
    ensures { number_in result ≡ renew_refusal rank chip }
{
    refuse_if(not_ready(rank), Refusal::NotReady)?;
    refuse_if(register_differs(rank), Refusal::Register)?;
    refuse_if(chip_out(chip), Refusal::Chip)
}

// Of fault: 12, 13, 14, 1, 3, 4.
pub fn of_fault(
    rank: Rank,
    memory: &[u8],
    line: u32,
    chip: u32,
    pattern: &[u8],
) -> Result<(), Refusal>
    ensures { number_in result ≡ fault_refusal rank memory.now line chip pattern.now }
{
    of_line(rank, memory, line)?;
    refuse_if(chip_out(chip), Refusal::Chip)?;
    refuse_if(pattern.len() != CHIP_BYTES, Refusal::Pattern)
}

// What write and fault begin with: 12, 13, 14, 1.
fn of_line(rank: Rank, memory: &[u8], line: u32) -> Result<(), Refusal>
    ensures { number_in result ≡ first_of (line_refusals rank memory.now line) }
{
    of_state(rank, memory)?;
    refuse_if(rank.lines <= line, Refusal::Line)
}

// Of the record and the memory: 12, 13, 14.
fn of_state(rank: Rank, memory: &[u8]) -> Result<(), Refusal>
    ensures { number_in result ≡ first_of (state_refusals rank memory.now) }
{
    refuse_if(not_ready(rank), Refusal::NotReady)?;
    refuse_if(memory_differs(rank, memory), Refusal::Memory)?;
    refuse_if(register_differs(rank), Refusal::Register)
}

// A refusal, if its condition holds.
fn refuse_if(holds: bool, refusal: Refusal) -> Result<(), Refusal>
    ensures { number_in result ≡ refused_if holds (number_of refusal) }
{
    if holds { Err(refusal) } else { Ok(()) }
}

// 2: the line buffer is not 64 bytes.
#[tactic(auto, unfolding(crate::specs::Refusals::buffer_out))]
fn buffer_out(buffer: &[u8]) -> bool
    ensures { result ≡ buffer_out buffer.now }
{
    buffer.len() != DATA_BYTES
}

// 3: the chip is not below 9.
#[tactic(auto, unfolding(crate::specs::Refusals::chip_out))]
fn chip_out(chip: u32) -> bool
    ensures { result ≡ chip_out chip }
{
    CHIPS <= chip as usize
}

// 11: the memory is empty, no multiple of 81, or over the most lines.
#[tactic(auto, unfolding(crate::specs::Refusals::memory_out))]
fn memory_out(memory: &[u8]) -> bool
    ensures { result ≡ memory_out memory.now }
{
    let bytes = memory.len();
    bytes == 0 || bytes % LINE_BYTES != 0 || (Rank::LINE_LIMIT as usize) < bytes / LINE_BYTES
}

// 12: Enable is clear, or N is outside 1 to the most lines.
#[tactic(auto, unfolding(crate::specs::Refusals::not_ready))]
fn not_ready(rank: Rank) -> bool
    ensures { result ≡ not_ready rank }
{
    !rank.enable || !Rank::is_line_count(rank.lines)
}

// 13: the memory is not 81 × N bytes.
#[tactic(auto, unfolding(crate::specs::Refusals::memory_differs))]
fn memory_differs(rank: Rank, memory: &[u8]) -> bool
    ensures { result ≡ memory_differs rank memory.now }
{
    memory.len() != LINE_BYTES * rank.lines as usize
}

// 14: a register differs from its catch-word.
fn register_differs(rank: Rank) -> bool
    ensures { result ≡ register_differs rank }
{
    rank.registers != rank.catch_words
}

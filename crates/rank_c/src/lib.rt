// The calls of crate `rank` as C links them: each hands its arguments on and states the same clauses, word for word. `include/rank.h`
// declares them; it has a slice as a pointer and a length, and a record by value.
#![tactic(auto)]

ghost use Rattle.std.specs.Prelude.{◌≡◌};
ghost use Rattle.rank.specs.Calls.{boot_of, write_of, read_of, patrol_of, renew_of, fault_of, interface_version};

use rank::{Called, PatrolResult};
use record::Rank;
use visits::ReadResult;

// Boot: clears the memory and gives the record of as many lines as it holds, with nine catch-words in both copies.
#[unsafe(no_mangle)]
pub extern "C" fn rank_boot(memory: &mut [u8], catch_words: &[u64]) -> Called
    ensures result { result ≡ (boot_of memory.old catch_words.now).result }
    ensures memory { memory.new ≡ (boot_of memory.old catch_words.now).memory }
{
    rank::rank_boot(memory, catch_words)
}

// Write: lays the nine codewords of a line's 64 bytes.
#[unsafe(no_mangle)]
pub extern "C" fn rank_write(rank: Rank, memory: &mut [u8], line: u32, bytes: &[u8]) -> Called
    ensures result { result ≡ (write_of rank memory.old line bytes.now).result }
    ensures memory { memory.new ≡ (write_of rank memory.old line bytes.now).memory }
{
    rank::rank_write(rank, memory, line, bytes)
}

// Read: a visit, for a task, that puts the line in a 64-byte buffer.
#[unsafe(no_mangle)]
pub extern "C" fn rank_read(
    rank: Rank,
    memory: &mut [u8],
    task: u32,
    line: u32,
    buffer: &mut [u8],
) -> ReadResult
    ensures result { result ≡ (read_of rank memory.old task line buffer.old).result }
    ensures memory { memory.new ≡ (read_of rank memory.old task line buffer.old).memory }
    ensures buffer { buffer.new ≡ (read_of rank memory.old task line buffer.old).buffer }
{
    rank::rank_read(rank, memory, task, line, buffer)
}

// Patrol (patrol scrub): visits min(budget, N − first) lines from a first line upwards, for one task. A refused line doesn't stop it.
#[unsafe(no_mangle)]
pub extern "C" fn rank_patrol(
    rank: Rank,
    memory: &mut [u8],
    task: u32,
    first: u32,
    budget: u32,
) -> PatrolResult
    ensures result { result ≡ (patrol_of rank memory.old task first budget).result }
    ensures memory { memory.new ≡ (patrol_of rank memory.old task first budget).memory }
{
    rank::rank_patrol(rank, memory, task, first, budget)
}

// Renew: gives one chip a catch-word of any value, in both copies.
#[unsafe(no_mangle)]
pub extern "C" fn rank_renew(rank: Rank, chip: u32, catch_word: u64) -> Called
    ensures { result ≡ renew_of rank chip catch_word }
{
    rank::rank_renew(rank, chip, catch_word)
}

// Fault: xors nine bytes, a pattern, into one chip of one line.
#[unsafe(no_mangle)]
pub extern "C" fn rank_fault(
    rank: Rank,
    memory: &mut [u8],
    line: u32,
    chip: u32,
    pattern: &[u8],
) -> Called
    ensures result { result ≡ (fault_of rank memory.old line chip pattern.now).result }
    ensures memory { memory.new ≡ (fault_of rank memory.old line chip pattern.now).memory }
{
    rank::rank_fault(rank, memory, line, chip, pattern)
}

// The version of this interface, `RANK_VERSION` in include/rank.h: a caller compares the two, since an archive of another version can link.
#[unsafe(no_mangle)]
pub extern "C" fn rank_version() -> u32
    ensures { result ≡ interface_version }
{
    rank::rank_version()
}

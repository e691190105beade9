// The six calls (document 01, "The calls"), which firmware links by crate `rank_c`: each is tested for its refusals, and its work is done
// by a crate below. No call has a `requires`: each says for every input what it returns and what every byte lent to be written is
// afterwards. What is lent by `&` can't be written.
#![tactic(auto)]

ghost use Rattle.std.specs.Prelude.{◌≡◌};
ghost use Rattle.rank.specs.Calls.{boot_of, write_of, read_of, patrol_of, renew_of, fault_of, interface_version};

use record::Rank;
use visits::read::Visited;
use visits::{ReadResult, read, sweep};

// It grows whenever a struct, a parameter list or the set of calls changes.
const INTERFACE_VERSION: u32 = 3;

// What boot, write, renew and fault return: a refusal by its number in document 01, 0 for none, since an exported struct can't hold an
// enum, and the record.
#[repr(C)]
#[derive(Clone, Copy)]
pub struct Called {
    pub refusal: u32,
    pub rank: Rank,
}

// What a patrol returns: also the lines visited, the lines refused and the words rewritten.
#[repr(C)]
#[derive(Clone, Copy)]
pub struct PatrolResult {
    pub refusal: u32,
    pub visited: u32,
    pub refused: u32,
    pub rewritten: u32,
    pub rank: Rank,
}

// Boot: clears the memory and gives the record of as many lines as it holds, with nine catch-words in both copies.
pub fn rank_boot(memory: &mut [u8], catch_words: &[u64]) -> Called
    ensures result { result ≡ (boot_of memory.old catch_words.now).result }
    ensures memory { memory.new ≡ (boot_of memory.old catch_words.now).memory }
{
    if let Err(refusal) = refusals::of_boot(memory, catch_words) {
        return Called {
            refusal: refusal.into(),
            rank: Rank::fresh(),
        };
    }
    memory::clear(memory);
    Called {
        refusal: 0,
        rank: record::booted(memory, catch_words),
    }
}

// Write: lays the nine codewords of a line's 64 bytes.
pub fn rank_write(rank: Rank, memory: &mut [u8], line: u32, bytes: &[u8]) -> Called
    ensures result { result ≡ (write_of rank memory.old line bytes.now).result }
    ensures memory { memory.new ≡ (write_of rank memory.old line bytes.now).memory }
{
    let refusal = match refusals::of_write(rank, memory, line, bytes) {
        Ok(()) => {
            memory::lay(memory, line, bytes.as_array().unwrap());
            0
        }
        Err(refusal) => refusal.into(),
    };
    Called {
        refusal,
        rank: record::kept(rank),
    }
}

// Read: a visit, for a task, that puts the line in a 64-byte buffer.
pub fn rank_read(
    rank: Rank,
    memory: &mut [u8],
    task: u32,
    line: u32,
    buffer: &mut [u8],
) -> ReadResult
    ensures result { result ≡ (read_of rank memory.old task line buffer.old).result }
    ensures memory { memory.new ≡ (read_of rank memory.old task line buffer.old).memory }
    ensures buffer { buffer.new ≡ (read_of rank memory.old task line buffer.old).buffer }
{
    // One local holds the record from the first test to the result: the compiler then copies it whole.
    let mut after = rank;
    let visited = match refusals::of_read(after, memory, task, line, buffer) {
        Ok(()) => {
            let lines = after.lines;
            let bytes = buffer.as_mut_array().unwrap();
            let visited = read::visit_into(&mut after.catch_words, memory, lines, line, bytes);
            record::count(&mut after.repairs, task, visited.refusal, visited.flagged);
            record::set_registers(&mut after.registers, after.catch_words, visited.collisions);
            visited
        }
        Err(refusal) => Visited {
            refusal: refusal.into(),
            passes: 0,
            flagged: 0,
            collisions: 0,
        },
    };
    ReadResult {
        refusal: visited.refusal,
        passes: visited.passes,
        flagged: visited.flagged,
        collisions: visited.collisions,
        rank: after,
    }
}

// Patrol (patrol scrub): visits min(budget, N − first) lines from a first line upwards, for one task. A refused line doesn't stop it.
pub fn rank_patrol(
    rank: Rank,
    memory: &mut [u8],
    task: u32,
    first: u32,
    budget: u32,
) -> PatrolResult
    ensures result { result ≡ (patrol_of rank memory.old task first budget).result }
    ensures memory { memory.new ≡ (patrol_of rank memory.old task first budget).memory }
{
    if let Err(refusal) = refusals::of_patrol(rank, memory, task, first) {
        return PatrolResult {
            refusal: refusal.into(),
            visited: 0,
            refused: 0,
            rewritten: 0,
            rank,
        };
    }
    let visited = sweep::allowance(budget, rank.lines - first);
    let tally = sweep::sweep(rank, memory, task, first, visited);
    PatrolResult {
        refusal: 0,
        visited,
        refused: tally.counts.refused,
        rewritten: tally.counts.rewritten,
        rank: tally.rank,
    }
}

// Renew: gives one chip a catch-word of any value, in both copies.
pub fn rank_renew(rank: Rank, chip: u32, catch_word: u64) -> Called
    ensures { result ≡ renew_of rank chip catch_word }
{
    if let Err(refusal) = refusals::of_renew(rank, chip) {
        return Called {
            refusal: refusal.into(),
            rank,
        };
    }
    Called {
        refusal: 0,
        rank: record::renewed(rank, chip, catch_word),
    }
}

// Fault: xors nine bytes, a pattern, into one chip of one line.
pub fn rank_fault(rank: Rank, memory: &mut [u8], line: u32, chip: u32, pattern: &[u8]) -> Called
    ensures result { result ≡ (fault_of rank memory.old line chip pattern.now).result }
    ensures memory { memory.new ≡ (fault_of rank memory.old line chip pattern.now).memory }
{
    if let Err(refusal) = refusals::of_fault(rank, memory, line, chip, pattern) {
        return Called {
            refusal: refusal.into(),
            rank,
        };
    }
    memory::xor_into(memory, line, chip, pattern.as_array().unwrap());
    Called { refusal: 0, rank }
}

// The version of this interface, `RANK_VERSION` in include/rank.h: a caller compares the two, since an archive of another version can link.
pub fn rank_version() -> u32
    ensures { result ≡ interface_version }
{
    INTERFACE_VERSION
}

// One line of a script for program `bench` (document 01, "Bench examples"): its call is made, and the answer is put in the output.
#![tactic(auto)]

ghost use Rattle.std.specs.Prelude.{◌≡◌, ◌+◌, ◌≤◌, replicate};
ghost use Rattle.cells.specs.Cells.{data_bytes};
ghost use Rattle.rank.specs.Calls.{write_of, read_of, fault_of};
ghost use Rattle.texts.specs.Texts.{longest_text};
ghost use Rattle.texts.specs.Outputs.{HasRoom};
ghost use Rattle.answers.specs.Answers.{Replies, call_reply, pattern_of, read_reply, reply_to};

use cells::{CHIP_BYTES, DATA_BYTES};
use events::Event;
use record::Rank;
use texts::Output;

// Answers a line, its line feed left out: makes the call that it asks for, and puts what is printed for it in the output. Gives the
// record after it. The three calls take and return different things, so that each has a function; record and memory stay two, as the calls
// take them.
pub fn answer(rank: Rank, memory: &mut [u8], line: &[u8], out: &mut Output) -> Rank
    requires { HasRoom out.old }
    ensures reply { Replies (reply_to line.now rank memory.old) result memory.new out.old out.new }
    ensures most { out.new.used ≤ out.old.used + longest_text }
{
    match events::event_of(line) {
        Some(Event::Write { line, byte }) => answer_write(rank, memory, line, byte, out),
        Some(Event::Read { line }) => answer_read(rank, memory, line, out),
        Some(
            Event::Fault {
                line,
                chip,
                word,
                check,
            },
        ) => answer_fault(rank, memory, line, chip, &pattern(word, check), out),
        None => {
            out.spell_unknown();
            rank
        }
    }
}

// Writes 64 equal bytes to a line.
fn answer_write(rank: Rank, memory: &mut [u8], line: u32, byte: u8, out: &mut Output) -> Rank
    requires { HasRoom out.old }
    ensures reply { Replies (call_reply 119 (write_of rank memory.old line (replicate data_bytes byte)))
        result memory.new out.old out.new }
    ensures most { out.new.used ≤ out.old.used + longest_text }
{
    let called = rank::rank_write(rank, memory, line, &[byte; DATA_BYTES]);
    out.spell_call(b'w', called.refusal);
    called.rank
}

// Reads a line. The bench names task 0 (document 02, Req 01).
fn answer_read(rank: Rank, memory: &mut [u8], line: u32, out: &mut Output) -> Rank
    requires { HasRoom out.old }
    ensures reply { Replies (read_reply (read_of rank memory.old 0 line (replicate data_bytes 0)))
        result memory.new out.old out.new }
    ensures most { out.new.used ≤ out.old.used + longest_text }
{
    let mut buffer = [0u8; DATA_BYTES];
    let read = rank::rank_read(rank, memory, 0, line, &mut buffer);
    if read.refusal == 0 {
        let word = words::load_word(&buffer, 0);
        out.spell_read(word, read.passes, read.flagged, read.collisions);
    } else {
        out.spell_call(b'r', read.refusal);
    }
    read.rank
}

// Xors a pattern into a chip of a line.
fn answer_fault(
    rank: Rank,
    memory: &mut [u8],
    line: u32,
    chip: u32,
    pattern: &[u8; CHIP_BYTES],
    out: &mut Output,
) -> Rank
    requires { HasRoom out.old }
    ensures reply { Replies (call_reply 102 (fault_of rank memory.old line chip pattern.now))
        result memory.new out.old out.new }
    ensures most { out.new.used ≤ out.old.used + longest_text }
{
    let called = rank::rank_fault(rank, memory, line, chip, pattern);
    out.spell_call(b'f', called.refusal);
    called.rank
}

// The nine bytes of a pattern's word and check, laid as `cells` lays them: `pattern_of` is proved by these two clauses.
fn pattern(word: u64, check: u8) -> [u8; CHIP_BYTES]
    ensures { result ≡ pattern_of word check }
{
    let mut pattern = [0u8; CHIP_BYTES];
    words::store_word(&mut pattern, 0, word);
    words::store_byte(&mut pattern, 8, check);
    pattern
}

// What the programs `vectors_rank` and `vectors_rows` are written in: the calls on a rank of four lines, one after another, each compared
// with what is due: Ok, or Err with the number of a refusal.
#![tactic(auto)]

ghost use Rattle.std.specs.Prelude.{◌≡◌, ◌+◌, ◌%◌, ◌^◌, true, false};

use record::Rank;
use std::io;
use trials::{Visit, outcome};

// The catch-words of document 01's bench.
pub const CATCH_WORD: u64 = 0x1111_1111_1111_1111;

// What each byte of a buffer is before a read.
pub const UNREAD: u8 = 0x5a;

// What a patrol reports: the lines visited, the lines refused and the words rewritten.
#[derive(Clone, Copy, PartialEq, Eq, Default)]
pub struct Tally {
    pub visited: u32,
    pub refused: u32,
    pub rewritten: u32,
}

impl Tally {
    pub fn new(visited: u32, refused: u32, rewritten: u32) -> Self
        ensures visited { result.visited ≡ visited }
        ensures refused { result.refused ≡ refused }
        ensures rewritten { result.rewritten ≡ rewritten }
    {
        Tally {
            visited,
            refused,
            rewritten,
        }
    }
}

// The record and the memory as the last call left them, the calls made, and how many of them did what was due.
#[derive(Clone, Copy)]
pub struct Session {
    pub rank: Rank,
    pub memory: [u8; 324],
    pub made: u64,
    pub held: u64,
}

// Makes the calls of a kind on a rank as an accepted boot leaves it, and prints how many of them did what was due.
pub fn run<F: FnOnce(&mut Session)>(rt: &impl Print, what: &str, calls: F) -> io::Result<()>
    requires { F.IsAlwaysCallable calls }
{
    let mut s = Session {
        rank: record_of(4, true, CATCH_WORD),
        memory: [0; 324],
        made: 0,
        held: 0,
    };
    calls(&mut s);
    trials::print(rt, what, s.held, s.made)
}

// A record with one catch-word for all nine chips.
pub fn record_of(lines: u32, enable: bool, catch_word: u64) -> Rank {
    Rank {
        lines,
        enable,
        catch_words: [catch_word; 9],
        registers: [catch_word; 9],
        repairs: [0; 8],
    }
}

// Each call is counted, once: a clause of each says so, as it is about the call and not about a session.
impl Session {
    // A write of one byte 64 times, which is to be accepted.
    pub fn write(&mut self, line: u32, byte: u8)
        ensures { self.new.made ≡ (self.old.made + 1) % 2 ^ 64 }
    {
        self.write_gives(line, &[byte; 64], Ok(()));
    }

    // A write of any bytes.
    pub fn write_gives(&mut self, line: u32, bytes: &[u8], due: Result<(), u32>)
        ensures { self.new.made ≡ (self.old.made + 1) % 2 ^ 64 }
    {
        let before = self.memory;
        let called = rank::rank_write(self.rank, &mut self.memory, line, bytes);
        self.judge(called.rank, before, outcome(called.refusal) == due, due);
    }

    // A fault that is to be accepted. The pattern is given by its last three bytes.
    pub fn fault(&mut self, line: u32, chip: u32, last: [u8; 3])
        ensures { self.new.made ≡ (self.old.made + 1) % 2 ^ 64 }
    {
        let pattern = [0, 0, 0, 0, 0, 0, last[0], last[1], last[2]];
        self.fault_gives(line, chip, &pattern, Ok(()));
    }

    // A fault by any pattern.
    pub fn fault_gives(&mut self, line: u32, chip: u32, pattern: &[u8], due: Result<(), u32>)
        ensures { self.new.made ≡ (self.old.made + 1) % 2 ^ 64 }
    {
        let before = self.memory;
        let called = rank::rank_fault(self.rank, &mut self.memory, line, chip, pattern);
        self.judge(called.rank, before, outcome(called.refusal) == due, due);
    }

    // A read of 64 bytes. An answer is one byte 64 times, a refusal leaves the buffer as it was.
    pub fn read(&mut self, line: u32, task: u32, due: Result<u8, u32>, seen: Visit)
        ensures { self.new.made ≡ (self.old.made + 1) % 2 ^ 64 }
    {
        self.read_gives(&mut [UNREAD; 64], line, task, due, seen);
    }

    // A read into any buffer.
    pub fn read_gives(
        &mut self,
        buffer: &mut [u8],
        line: u32,
        task: u32,
        due: Result<u8, u32>,
        seen: Visit,
    )
        ensures { self.new.made ≡ (self.old.made + 1) % 2 ^ 64 }
    {
        let before = self.memory;
        let r = rank::rank_read(self.rank, &mut self.memory, task, line, buffer);
        let byte = due.unwrap_or(UNREAD);
        let due = due.map(|_| ());
        let right = outcome(r.refusal) == due
            && Visit::new(r.passes, r.flagged, r.collisions) == seen
            && buffer.iter().all(|b| *b == byte);
        self.judge(r.rank, before, right, due);
    }

    // A refused patrol is to report no lines and no words.
    pub fn patrol(&mut self, first: u32, task: u32, budget: u32, due: Result<Tally, u32>)
        ensures { self.new.made ≡ (self.old.made + 1) % 2 ^ 64 }
    {
        let before = self.memory;
        let p = rank::rank_patrol(self.rank, &mut self.memory, task, first, budget);
        let tally = due.unwrap_or_default();
        let due = due.map(|_| ());
        let right = outcome(p.refusal) == due
            && Tally::new(p.visited, p.refused, p.rewritten) == tally;
        self.judge(p.rank, before, right, due);
    }

    // A renew has no memory.
    pub fn renew(&mut self, chip: u32, catch_word: u64, due: Result<(), u32>)
        ensures { self.new.made ≡ (self.old.made + 1) % 2 ^ 64 }
    {
        let called = rank::rank_renew(self.rank, chip, catch_word);
        let right = outcome(called.refusal) == due;
        self.judge(called.rank, self.memory, right, due);
    }

    // Counts a call and takes its record. A refused call is to have left the record and the memory as they were.
    fn judge(&mut self, rank: Rank, before: [u8; 324], right: bool, due: Result<(), u32>)
        ensures rank { self.new.rank ≡ rank }
        ensures made { self.new.made ≡ (self.old.made + 1) % 2 ^ 64 }
    {
        let stays = rank == self.rank && self.memory == before;
        self.count(right && (due.is_ok() || stays));
        self.rank = rank;
    }

    // Counts a call, or something else that is looked at, by whether it did what was due.
    pub fn count(&mut self, held: bool)
        ensures made { self.new.made ≡ (self.old.made + 1) % 2 ^ 64 }
        ensures failed { held ≡ false → self.new.held ≡ self.old.held }
        ensures held { held ≡ true → self.new.held ≡ (self.old.held + 1) % 2 ^ 64 }
    {
        self.made = self.made.wrapping_add(1);
        if held {
            self.held = self.held.wrapping_add(1);
        }
    }
}

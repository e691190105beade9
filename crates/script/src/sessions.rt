// A script's input, taken up part by part: the lines that end in it are answered, and the beginning of the line that goes on is kept.
ghost use Rattle.std.specs.Prelude.{◌≡◌, ◌<◌, ◌++◌, [], length, take};
ghost use Rattle.texts.specs.Outputs.{HasRoom};
ghost use Rattle.script.specs.Sessions.{Advance, Finish};

use answers::answer;
use events::places::split_once;
use record::Rank;
use std::marker::Model;
use texts::Output;

// The bytes that are kept of a line. A longer line is no event, and neither are its first 41 bytes.
pub const KEPT: usize = 41;

// The line that has begun: its first bytes, 41 at the most. Contracts see the room behind them too (`spare`) and say nothing of it: a type
// whose model leaves a part out can't be `Copy`.
#[derive(Clone, Copy)]
pub struct Line {
    bytes: [u8; KEPT],
    kept: usize,
}

impl Model for Line {
    ghost use Rattle.std.specs.Prelude.{◌≡◌, ◌++◌, ◌≤◌, drop, length, take};
    ghost use Rattle.std.proofs.Common.{length-take-le, subst, sym, take-append-drop};
    ghost use Rattle.script.specs.LineBytes.{LineBytes};

    ghost Value = { LineBytes };

    ghost view = { λ line. record { bytes = take line.kept line.bytes; spare = drop line.kept line.bytes } };

    // The second fact is the array's own. It stands here since `inverse_ok` knows the invariant alone.
    ghost invariant = { λ line. (line.kept ≤ 41) × (length line.bytes ≡ 41) };

    ghost inverse = { λ line. record { bytes = line.bytes ++ line.spare; kept = length line.bytes } };

    ghost inverse_ok = { λ line h i. record {
      bytes = take-append-drop line.kept line.bytes i;
      kept = length-take-le line.kept line.bytes (subst (λ n. line.kept ≤ n) (sym h.1) h.0) i;
    } };
}

impl Line {
    // A line of which nothing has come.
    pub fn new() -> Self
        ensures { result.bytes ≡ [] }
    {
        Line {
            bytes: [0; KEPT],
            kept: 0,
        }
    }

    // The bytes kept.
    pub fn bytes(&self) -> &[u8]
        ensures { result.now ≡ self.now.bytes }
    {
        &self.bytes[..self.kept]
    }

    // The line goes on with bytes, of which as many are kept as there is room for.
    pub fn add(&mut self, bytes: &[u8])
        ensures { self.new.bytes ≡ take 41 (self.old.bytes ++ bytes.now) }
    {
        let fitting = bytes.len().min(KEPT - self.kept);
        let (from, end) = (self.kept, self.kept + fitting);
        self.bytes[from..end].copy_from_slice(&bytes[..fitting]);
        self.kept = end;
    }

    // Begins the next line.
    pub fn clear(&mut self)
        ensures { self.new.bytes ≡ [] }
    {
        self.kept = 0;
    }
}

// How far a run has come: the record, and the line that has begun.
#[derive(Clone, Copy)]
pub struct Progress {
    pub rank: Rank,
    pub line: Line,
}

impl Progress {
    // Takes up bytes of a part of the input, at least one where there is one, and answers the lines that end in them. How many it takes is
    // left open: what is left of the part is answered.
    pub fn take_up<'a>(&mut self, memory: &mut [u8], bytes: &'a [u8], out: &mut Output) -> &'a [u8]
        requires { HasRoom out.old }
        ensures advance { Advance self.old self.new bytes.now result.now memory.old out.old memory.new out.new }
        ensures moves { 0 < length bytes.now → length result.now < length bytes.now }
    {
        let mut rest = bytes;
        while let Some((end, behind)) = split_once(rest, b'\n') {
            if !out.has_room() {
                return rest;
            }
            self.line.add(end);
            self.rank = answer(self.rank, memory, self.line.bytes(), out);
            self.line.clear();
            rest = behind;
        }
        self.line.add(rest);
        &[]
    }

    // Answers the line that has begun, if one has, at the end of the input.
    pub fn finish(&self, memory: &mut [u8], out: &mut Output)
        requires { HasRoom out.old }
        ensures { Finish self.now memory.old out.old memory.new out.new }
    {
        let line = self.line.bytes();
        if !line.is_empty() {
            let _ = answer(self.rank, memory, line, out);
        }
    }
}

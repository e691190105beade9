// What the programs `vectors_code`, `vectors_line`, `vectors_rank` and `vectors_rows` share: words of a fixed sequence, a CRC-8 made
// another way than that of `code`, the trials of a kind, and the line of output that says how many of them succeeded.
#![tactic(auto)]

ghost use Rattle.std.specs.Prelude.{◌≡◌, ◌≤◌, Ok, Err, if◌then◌else◌, ◌==◌};

use std::io;

// What a visit to a line reports beside its outcome: the passes, and the masks of the chips that were flagged and that collided, bit K for
// chip K.
#[derive(Clone, Copy, PartialEq, Eq, Default)]
pub struct Visit {
    pub passes: u32,
    pub flagged: u32,
    pub collisions: u32,
}

impl Visit {
    pub fn new(passes: u32, flagged: u32, collisions: u32) -> Self
        ensures passes { result.passes ≡ passes }
        ensures flagged { result.flagged ≡ flagged }
        ensures collisions { result.collisions ≡ collisions }
    {
        Visit {
            passes,
            flagged,
            collisions,
        }
    }
}

// What a call of the C interface returned, whose number for no refusal is 0.
pub fn outcome(number: u32) -> Result<(), u32>
    ensures { result ≡ (if number == 0 then Ok tt else Err number) }
{
    if number == 0 { Ok(()) } else { Err(number) }
}

// Makes the n trials of a kind, numbered from 0, and prints how many succeeded.
pub fn run<F: Fn(u64) -> bool>(rt: &impl Print, what: &str, n: u64, trial: F) -> io::Result<()>
    requires { F.IsAlwaysCallable trial }
{
    print(rt, what, count_successes(n, trial), n)
}

// How many of the n trials succeed.
fn count_successes<F: Fn(u64) -> bool>(n: u64, trial: F) -> u64
    requires { F.IsAlwaysCallable trial }
    ensures { result ≤ n }
{
    (0..n).filter(|i| trial(*i)).count() as u64
}

// Prints what was tried, how many trials succeeded, and of how many.
pub fn print(rt: &impl Print, what: &str, count: u64, n: u64) -> io::Result<()> {
    println!(rt; "{what}: {count} of {n}")
}

// A word of the fixed sequence: a number spread over the 64 bits by shifts and xors. The remainder keeps the product within them.
pub fn word_of(i: u64) -> u64 {
    spread(spread(spread(i % 1048576 * 0x9e37_79b9 + 1)))
}

fn spread(word: u64) -> u64 {
    let a = word ^ (word << 13);
    let b = a ^ (a >> 7);
    b ^ (b << 17)
}

// The remainder of a word and a check byte, the CRC-8 of a shift register that takes the nine bytes bit by bit, the highest first.
pub fn remainder(word: u64, check: u8) -> u8 {
    let bytes = ((word as u128) << 8) | check as u128;
    (0..72).rev().fold(0, |register, i| after_bit(register, (bytes >> i) & 1 == 1))
}

// The register after one bit more: where x^7 moves up to x^8, x^2 + x + 1 stands for it.
fn after_bit(register: u8, bit: bool) -> u8 {
    let moved = (register << 1) | bit as u8;
    if register < 0x80 { moved } else { moved ^ 0x07 }
}

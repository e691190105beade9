// Lines laid and read back, and visits to a line, tried at run time on lines that are made with another CRC-8. Each line of output says
// what was tried, how many trials succeeded, and of how many.
#![tactic(auto)]

use std::io;
use trials::{Visit, run};

mod lines;
mod visits;

fn main(rt: HostRuntime) -> io::Result<()> {
    run(&rt, "a line laid and read back", 1, reads_back)?;
    run(&rt, "collisions on all nine chips", 1, all_collide)?;
    visits::report(&rt)
}

fn reads_back(i: u64) -> bool {
    let words = lines::words_of(i);
    let bytes = lines::line_bytes(words);
    let mut line = [0u8; 81];
    let mut back = [0u8; 64];
    cells::lay_line(&mut line, &bytes);
    cells::read_line(&line, &mut back);
    line == lines::laid(words) && back == bytes
}

fn all_collide(i: u64) -> bool {
    let words = lines::words_of(i);
    let line = lines::laid(words);
    visits::visit_leaves(line, &words, Ok(()), Visit::new(2, 0, 0x1ff), line)
}

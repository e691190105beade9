// Row diagnosis (document 02, Req 04), tried at run time. Each line of output says what was tried, how many trials succeeded, and of how
// many.
#![tactic(auto)]

use rank_trials::{Session, run};
use std::io;
use trials::Visit;

mod hits;
mod patrols;
mod reads;

fn main(rt: HostRuntime) -> io::Result<()> {
    run(&rt, "two chips beyond mending", two_beyond)?;
    run(&rt, "chip 8 blamed", chip_8)?;
    run(&rt, "12 and 13 of 127 other lines", reads::by_count)?;
    run(&rt, "chips that reach the mark", reads::by_chip)?;
    run(&rt, "lines of another row", reads::by_row)?;
    run(&rt, "a short last row", reads::by_short_row)?;
    run(
        &rt,
        "another line, outside the premise",
        reads::another_line,
    )?;
    run(&rt, "patrols over a bad row", patrols::over_row)
}

// Two chips beyond mending are refused without a diagnosis, which would blame chip 3.
fn two_beyond(s: &mut Session) {
    s.fault(0, 3, [0, 3, 0]);
    s.fault(0, 5, [0, 3, 0]);
    s.fault(1, 3, [0, 1, 0]);
    s.read(0, 0, Err(21), Visit::new(3, 0x028, 0x000));
}

// Chip 8 is blamed as the others are, once chip 3 is repaired on line 1 and counts no more. Line 3, by which it is blamed, stays hit.
fn chip_8(s: &mut Session) {
    s.fault(1, 3, [0, 1, 0]);
    s.fault(2, 8, [0, 0, 7]);
    s.fault(2, 1, [0, 1, 0]);
    s.fault(3, 8, [0, 1, 0]);
    s.read(2, 0, Err(21), Visit::new(9, 0x102, 0x000));
    s.read(1, 0, Ok(0x00), Visit::new(2, 0x008, 0x000));
    s.read(2, 0, Ok(0x00), Visit::new(9, 0x102, 0x000));
    s.read(2, 0, Ok(0x00), Visit::new(1, 0x000, 0x000));
    s.read(3, 0, Ok(0x00), Visit::new(2, 0x100, 0x000));
}

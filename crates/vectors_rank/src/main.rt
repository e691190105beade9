// The calls on a rank, tried at run time. Each line of output says what was tried, how many trials succeeded, and of how many.
#![tactic(auto)]

use rank_trials::run;
use std::io;

mod refused;
mod scripts;

fn main(rt: HostRuntime) -> io::Result<()> {
    run(&rt, "boots, 11 and 5 among them", refused::by_boot)?;
    run(&rt, "refused 12, 13 and 14", refused::by_state)?;
    run(&rt, "refused 31, 1, 3, 2 and 4", refused::by_argument)?;
    run(&rt, "lines of a rank of 4,097", refused::by_line)?;
    run(&rt, "the example of program bench", scripts::bench)?;
    run(&rt, "mistakes seen on the bench", scripts::mistakes)?;
    run(&rt, "catch-words moved, with a carry", scripts::moves)?;
    run(&rt, "patrols over damaged lines", scripts::patrols)?;
    run(&rt, "repair totals by task", scripts::totals)
}

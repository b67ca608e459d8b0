// Runs document 01's 'Run and compared' and shares through the functions that the firmware calls, on a long disc too,
// and erase on discs that are not good; prints what was asked and what came out. The gate compares that with the file
// stdout.
#![tactic(auto)]

mod discs;
mod long_discs;
mod runs;
mod shares;
mod variables;

use disc::layout::SHORT_DISC;
use std::io;

fn main(rt: HostRuntime) -> io::Result<()> {
    discs::sizes(&rt)?;
    let mut disc = [0u8; SHORT_DISC];
    variables::cases(&rt, &mut disc)?;
    shares::cases(&rt, &mut disc)?;
    discs::wrong_lengths(&rt)?;
    discs::damaged(&rt)?;
    long_discs::cases(&rt)
}

// Runs document 01's cases of variable memory and prints what comes out. The gate compares that with the file stdout.
#![tactic(auto)]

mod cases;
mod memory;

use std::io;

fn main(rt: HostRuntime) -> io::Result<()> {
    cases::twenty_six(&rt)?;
    cases::full_memory(&rt)?;
    cases::ending(&rt)
}

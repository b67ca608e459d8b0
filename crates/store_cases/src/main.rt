// Runs document 01's cases of the disc and prints what comes out. The gate compares that with the file stdout.
#![tactic(auto)]

mod cases;
mod discs;

use std::io;

fn main(rt: HostRuntime) -> io::Result<()> {
    cases::sizes(&rt)?;
    cases::starts_in_gap(&rt)?;
    cases::ten_files(&rt)?;
    cases::refused_stores(&rt)?;
    cases::wrong_lengths(&rt)?;
    cases::damaged_disc(&rt)?;
    cases::files_text(&rt)?;
    cases::retrieved(&rt)?;
    cases::free_spaces(&rt)?;
    cases::uncounted_entries(&rt)?;
    cases::erased_entry(&rt)
}

// Document 01's program bench, through the functions that the firmware calls. The gate compares what it writes with the
// six lines of document 01, in the file stdout.
#![tactic(auto)]

use disc::layout::SHORT_DISC;
use std::io;

// Format takes any bytes.
fn main(rt: HostRuntime) -> io::Result<()> {
    let mut disc = [255u8; SHORT_DISC];
    running::bench::bench(&rt, &mut disc)
}

// MAP, over drawn operands of each five types.
use crate::operands::{Grid, Kind};
use crate::tally::{Tally, checksum};
use std::io;

// How many cases a line has.
const CASES: u32 = 4096;

fn kinds_of(line: u32) -> [Kind; 5] {
    [line / 81, line / 27, line / 9, line / 3, line].map(Kind::by)
}

// The draws of a line start from the checksum of its types, and each is that of the one before with a 1 more.
fn over_draws(kinds: [Kind; 5], grid: &Grid) -> Tally {
    let mut tally = Tally::default();
    let mut draw = checksum(0, &kinds.map(|kind| kind as u8));
    for _ in 0..CASES {
        let [x, low, high, new_low, new_high] = kinds.map(|kind| {
            draw = checksum(draw, &[1]);
            grid.drawn(kind, draw)
        });
        tally.count(scaling::map::map(x, low, high, new_low, new_high));
    }
    tally
}

pub fn write_lines(rt: &impl Print, instruction: u8, grid: &Grid) -> io::Result<()> {
    for line in 0..243 {
        let kinds = kinds_of(line);
        let [a, b, c, d, e] = kinds;
        println!(rt;
            "{instruction} {a} {b} {c} {d} {e} {}",
            over_draws(kinds, grid)
        )?;
    }
    Ok(())
}

// POW, over every CHAR, every INT and the FLOATs of the grid, to the powers of 0 to 15 and some that are refused.
use crate::operands::{Grid, Kind, each, whole};
use crate::tally::Tally;
use operator::instruction::{takes, types_of};
use operator::operators::{Operator, Scaling};
use scaling::power::power_of;
use std::io;

// As bits of INT: 0 to 15; then -1, 16, 127, -128, 32767, -32768, and 271 and -241, whose low byte is 15. A CHAR has
// the low byte.
const EXPONENTS: [u32; 24] = [
    0, 1, 2, 3, 4, 5, 6, 7, 8, 9, 10, 11, 12, 13, 14, 15, 65535, 16, 127, 65408, 32767, 32768, 271,
    65295,
];

fn over_exponents(first: Kind, second: Kind, grid: &Grid) -> Tally {
    let mut tally = Tally::default();
    each(grid, first, |x| {
        tally.count_all(
            EXPONENTS
                .iter()
                .map(|bits| power_of(x, whole(second, *bits))),
        );
    });
    tally
}

pub fn write_lines(rt: &impl Print, instruction: u8, grid: &Grid) -> io::Result<()> {
    for line in 0..9 {
        let (first, second) = (Kind::by(line / 3), Kind::by(line));
        if takes(types_of(Operator::Scale(Scaling::Power), 1), second as u8) {
            let tally = over_exponents(first, second, grid);
            println!(rt; "{instruction} {first} {second} {tally}")?;
        }
    }
    Ok(())
}

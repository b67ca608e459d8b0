// An operator of one operand, over every CHAR, every INT, and the FLOATs of the grid.
use crate::operands::{Grid, Kind, each};
use crate::tally::Tally;
use operator::instruction::{takes, types_of};
use operator::operators::{Operator, Unary};
use operator::unary::apply;
use std::io;

pub fn write_lines(rt: &impl Print, instruction: u8, o: Unary, grid: &Grid) -> io::Result<()> {
    for kind in Kind::ALL {
        if takes(types_of(Operator::OfOne(o), 0), kind as u8) {
            let mut tally = Tally::default();
            each(grid, kind, |x| tally.count(apply(o, x)));
            println!(rt; "{instruction} {kind} {tally}")?;
        }
    }
    Ok(())
}

// An operator of two operands, over all pairs of operands of the grid.
use crate::operands::{Grid, Kind};
use crate::tally::Tally;
use operator::binary::apply;
use operator::instruction::{takes, types_of};
use operator::operators::{Binary, Operator};
use std::io;

fn over_pairs(o: Binary, first: Kind, second: Kind, grid: &Grid) -> Tally {
    let operands = grid.operands();
    let mut tally = Tally::default();
    for a in operands.iter().filter_map(|operand| operand.of(first)) {
        let seconds = operands.iter().filter_map(|operand| operand.of(second));
        tally.count_all(seconds.map(|b| apply(o, a, b)));
    }
    tally
}

pub fn write_lines(rt: &impl Print, instruction: u8, o: Binary, grid: &Grid) -> io::Result<()> {
    for line in 0..9 {
        let (first, second) = (Kind::by(line / 3), Kind::by(line));
        let takes_both = takes(types_of(Operator::OfTwo(o), 0), first as u8)
            && takes(types_of(Operator::OfTwo(o), 1), second as u8);
        if takes_both {
            let tally = over_pairs(o, first, second, grid);
            println!(rt; "{instruction} {first} {second} {tally}")?;
        }
    }
    Ok(())
}

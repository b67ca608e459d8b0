// CONSTRAIN, over all triples of CHARs, and over the triples of operands of the grid with other types.
use crate::operands::{Grid, Kind, whole};
use crate::tally::Tally;
use scaling::constrain::constrain;
use std::io;

fn over_chars() -> Tally {
    let mut tally = Tally::default();
    for x in Kind::Char.bits().map(|bits| whole(Kind::Char, bits)) {
        for a in Kind::Char.bits().map(|bits| whole(Kind::Char, bits)) {
            let highs = Kind::Char.bits().map(|bits| whole(Kind::Char, bits));
            tally.count_all(highs.map(|b| Ok(constrain(x, a, b))));
        }
    }
    tally
}

fn over_triples(kinds: [Kind; 3], grid: &Grid) -> Tally {
    let [first, second, third] = kinds;
    let operands = grid.operands();
    let mut tally = Tally::default();
    for x in operands.iter().filter_map(|operand| operand.of(first)) {
        for a in operands.iter().filter_map(|operand| operand.of(second)) {
            let highs = operands.iter().filter_map(|operand| operand.of(third));
            tally.count_all(highs.map(|b| Ok(constrain(x, a, b))));
        }
    }
    tally
}

// The first line is that of three CHARs.
pub fn write_lines(rt: &impl Print, instruction: u8, grid: &Grid) -> io::Result<()> {
    for line in 0..27 {
        let (first, second, third) = (Kind::by(line / 9), Kind::by(line / 3), Kind::by(line));
        let tally = if line == 0 {
            over_chars()
        } else {
            over_triples([first, second, third], grid)
        };
        println!(rt; "{instruction} {first} {second} {third} {tally}")?;
    }
    Ok(())
}

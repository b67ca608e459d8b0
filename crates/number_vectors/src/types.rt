// Which operand types each instruction takes.
use operator::instruction::{operator, takes, types_of};
use std::io;

fn write_types(rt: &impl Print, instruction: u8, place: u8) -> io::Result<()> {
    let takes_at = |kind: u8| match operator(instruction) {
        Some(o) => takes(types_of(o, place), kind),
        None => false,
    };
    for kind in (0..6).filter(|kind| takes_at(*kind)) {
        print!(rt; " {kind}")?;
    }
    println!(rt;)
}

// At the places above that of the operand pushed first.
fn write_others(rt: &impl Print, instruction: u8, last: u8) -> io::Result<()> {
    for place in 1..=last {
        print!(rt; "{instruction} {place}")?;
        write_types(rt, instruction, place)?;
    }
    Ok(())
}

fn write_firsts(rt: &impl Print) -> io::Result<()> {
    for instruction in 0..=u8::MAX {
        print!(rt; "{instruction}")?;
        write_types(rt, instruction, 0)?;
    }
    Ok(())
}

// CONSTRAIN has three operands, MAP five, POW two.
pub fn write_lines(rt: &impl Print) -> io::Result<()> {
    write_firsts(rt)?;
    for (instruction, last) in [(38, 2), (39, 4), (40, 1)] {
        write_others(rt, instruction, last)?;
    }
    Ok(())
}

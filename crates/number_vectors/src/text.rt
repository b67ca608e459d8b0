// What PRINT writes of numbers.
use crate::operands::{Grid, Kind, whole};
use crate::tally::checksum;
use number::Number;
use number::text::write;
use std::io;

fn write_line(rt: &impl Print, a: Number) -> io::Result<()> {
    rt.write_all(write(a).as_slice())?;
    println!(rt;)
}

// 997 times -32 to 32, as bits of INT.
fn write_multiples(rt: &impl Print) -> io::Result<()> {
    for k in 0..65 {
        write_line(rt, whole(Kind::Int, 33632 + 997 * k))?;
    }
    Ok(())
}

fn write_texts(rt: &impl Print, kind: Kind, grid: &Grid) -> io::Result<()> {
    for a in grid
        .operands()
        .iter()
        .filter_map(|operand| operand.of(kind))
    {
        write_line(rt, a)?;
    }
    Ok(())
}

// A length, then so many bytes, for the text of every CHAR or every INT.
fn checksum_of(kind: Kind) -> u32 {
    let mut sum = 0;
    for bits in kind.bits() {
        let text = write(whole(kind, bits));
        let bytes = text.as_slice();
        sum = checksum(sum, &[(bytes.len() % 256) as u8]);
        sum = checksum(sum, bytes);
    }
    sum
}

pub fn write_lines(rt: &impl Print, grid: &Grid) -> io::Result<()> {
    write_multiples(rt)?;
    write_texts(rt, Kind::Int, grid)?;
    write_texts(rt, Kind::Float, grid)?;
    for kind in [Kind::Char, Kind::Int] {
        let sum = checksum_of(kind);
        println!(rt; "{kind} {sum:08x}")?;
    }
    Ok(())
}

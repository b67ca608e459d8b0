// Runs the operators on numbers and writes what they answer; tools/number_vectors/generate.py says which line is what.
#![tactic(auto)]

mod binary;
mod constrain;
mod map;
mod operands;
mod power;
mod tally;
mod text;
mod types;
mod unary;

use crate::operands::Grid;
use operator::instruction::operator;
use operator::operators::{Operator, Scaling};
use std::io;

fn write_scaling(rt: &impl Print, instruction: u8, o: Scaling, grid: &Grid) -> io::Result<()> {
    match o {
        Scaling::Constrain => constrain::write_lines(rt, instruction, grid),
        Scaling::Map => map::write_lines(rt, instruction, grid),
        Scaling::Power => power::write_lines(rt, instruction, grid),
    }
}

fn write_operator(rt: &impl Print, instruction: u8, grid: &Grid) -> io::Result<()> {
    match operator(instruction) {
        Some(Operator::OfOne(o)) => unary::write_lines(rt, instruction, o, grid),
        Some(Operator::OfTwo(o)) => binary::write_lines(rt, instruction, o, grid),
        Some(Operator::Scale(o)) => write_scaling(rt, instruction, o, grid),
        None => Ok(()),
    }
}

fn write_operators(rt: &impl Print, grid: &Grid) -> io::Result<()> {
    for instruction in 0..=u8::MAX {
        write_operator(rt, instruction, grid)?;
    }
    Ok(())
}

fn main(rt: HostRuntime) -> io::Result<()> {
    let grid = Grid::read(&mut rt.reader())?;
    write_operators(&rt, &grid)?;
    text::write_lines(&rt, &grid)?;
    types::write_lines(&rt)
}

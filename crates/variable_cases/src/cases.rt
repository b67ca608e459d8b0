// Document 01's cases of variable memory.
use crate::memory::{Memory, Set};
use std::io;
use variable::Unplaced;
use variable::table::is_of;

// A SET of process 1 on a copy of a memory, with its name on the line.
#[derive(Clone, Copy)]
struct Case {
    label: &'static str,
    name: u8,
    size: usize,
}

impl Case {
    fn new(label: &'static str, name: u8, size: usize) -> Self {
        Case { label, name, size }
    }

    // Where the string goes or why it doesn't, and the memory then.
    fn tried(&self, memory: &Memory) -> (Result<usize, Unplaced>, Memory) {
        let mut after = *memory;
        let placing = after.set(Set {
            name: self.name,
            owner: 1,
            size: self.size,
            byte: 255,
        });
        (placing, after)
    }

    fn print_place(&self, rt: &impl Print, memory: &Memory) -> io::Result<()> {
        let (placing, _) = self.tried(memory);
        print!(rt; "{}", self.label)?;
        match placing {
            Ok(a) => println!(rt; " at {a}"),
            Err(Unplaced::NoEntry) => println!(rt; " no entry"),
            Err(Unplaced::NoRun) => println!(rt; " no run"),
        }
    }

    // Whether the SET has written anything.
    fn print_written(&self, rt: &impl Print, memory: &Memory) -> io::Result<()> {
        let (_, after) = self.tried(memory);
        let written = if after == *memory {
            "nothing written"
        } else {
            "written"
        };
        println!(rt; "{} {written}", self.label)
    }
}

fn print_places(rt: &impl Print, memory: &Memory, cases: &[Case]) -> io::Result<()> {
    for case in cases {
        case.print_place(rt, memory)?;
    }
    Ok(())
}

// Document 01: "a 26th variable gives fault 10, setting one of 25 again does not."
pub fn twenty_six(rt: &impl Print) -> io::Result<()> {
    let full = Memory::of_several(25, 1);
    for case in &[Case::new("26th:", 25, 1), Case::new("third again:", 2, 1)] {
        case.print_place(rt, &full)?;
        case.print_written(rt, &full)?;
    }
    Ok(())
}

// Eight strings of 30 bytes and one of 16 fill the memory, so that only the place of a string that is set again is
// free.
pub fn full_memory(rt: &impl Print) -> io::Result<()> {
    let mut full = Memory::of_several(8, 30);
    let _ = full.set(Set {
        name: 8,
        owner: 1,
        size: 16,
        byte: 8,
    });
    print_places(
        rt,
        &full,
        &[
            Case::new("one byte more:", 9, 1),
            Case::new("fifth again:", 4, 30),
            Case::new("fifth longer:", 4, 31),
        ],
    )?;
    Case::new("fifth longer:", 4, 31).print_written(rt, &full)?;
    let holed = full.freed(|v| is_of(v, 8, 1));
    print_places(
        rt,
        &holed,
        &[
            Case::new("30 bytes, 16 free:", 9, 30),
            Case::new("16 bytes, 16 free:", 9, 16),
            Case::new("fifth again, 16 free:", 4, 30),
        ],
    )?;
    print_places(
        rt,
        &holed.freed(|v| is_of(v, 1, 1)),
        &[
            Case::new("31 bytes, 30 and 16 free:", 9, 31),
            Case::new("fifth again, lower place free:", 4, 30),
        ],
    )
}

// Document 01: "Freed memory keeps its bytes; freed entries close up, zeros behind."
pub fn ending(rt: &impl Print) -> io::Result<()> {
    let mut memory = Memory::EMPTY;
    for (name, owner, byte) in [
        (65, 1, 11),
        (65, 2, 22),
        (66, 1, 33),
        (67, 2, 44),
        (68, 1, 55),
    ] {
        let _ = memory.set(Set {
            name,
            owner,
            size: 3,
            byte,
        });
    }
    print!(rt; "{memory}{}", memory.freed(|v| v.owner == 1))
}

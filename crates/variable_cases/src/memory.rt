// Variable memory, from an empty one on, with SETs of strings whose bytes are all alike, and freeing.
use std::{fmt, io};
use variable::table::{count_of, entry_at};
use variable::{MAX_VARIABLES, Unplaced, VALUE_SIZE, VARIABLES_SIZE, Variable};

const STRING: u8 = 3;

// A SET of a string of so many bytes, each of them this one.
#[derive(Clone, Copy)]
pub struct Set {
    pub name: u8,
    pub owner: u16,
    pub size: usize,
    pub byte: u8,
}

#[derive(Clone, Copy, PartialEq, Eq)]
pub struct Memory([u8; VARIABLES_SIZE]);

impl Memory {
    pub const EMPTY: Memory = Memory([0; VARIABLES_SIZE]);

    // Where the string goes. What a SET asks of its table and value is tested here, so that a case can be written
    // without proof.
    pub fn set(&mut self, set: Set) -> Result<usize, Unplaced> {
        let bytes = [set.byte; VALUE_SIZE];
        if MAX_VARIABLES < count_of(&self.0) || set.size < 1 || bytes.len() < set.size {
            return Err(Unplaced::NoRun);
        }
        let value = &bytes[..set.size];
        variable::assign::assign(&mut self.0, set.name, STRING, set.owner, value)
    }

    // Variables 0 to n - 1 of process 1, of that size.
    pub fn of_several(n: u8, size: usize) -> Self {
        let mut memory = Memory::EMPTY;
        for name in 0..n {
            let _ = memory.set(Set {
                name,
                owner: 1,
                size,
                byte: name,
            });
        }
        memory
    }

    // Without the variables that are gone.
    pub fn freed<F: Fn(Variable) -> bool>(mut self, gone: F) -> Self
        requires { F.IsAlwaysCallable gone }
    {
        if count_of(&self.0) <= MAX_VARIABLES {
            variable::free::free(&mut self.0, gone);
        }
        self
    }
}

// The count, the first six entries, those behind the count too, and the first 16 bytes of memory.
impl fmt::Display for Memory {
    fn fmt<W: fmt::Write>(&self, f: &mut fmt::Formatter<W>) -> fmt::Result {
        writeln!(f, "count {}", count_of(&self.0))?;
        for i in 0..6 {
            let e = entry_at(&self.0, i);
            writeln!(
                f,
                "name {} address {} size {} owner {}",
                e.name, e.address, e.size, e.owner
            )?;
        }
        write!(f, "memory")?;
        for byte in &self.0[..16] {
            write!(f, " {byte}")?;
        }
        writeln!(f)
    }
}

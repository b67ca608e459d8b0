// Operands: every CHAR and every INT by its bits, and those of the grid that is read.
use number::Number;
use number::value::decode;
use std::io::Read;
use std::ops::Range;
use std::{fmt, io};

// A type, with its byte on the stack.
#[derive(Clone, Copy, PartialEq, Eq)]
pub enum Kind {
    Char = 1,
    Int = 2,
    Float = 4,
}

impl Kind {
    pub const ALL: [Kind; 3] = [Kind::Char, Kind::Int, Kind::Float];

    // The types in their order, over and over.
    pub fn by(n: u32) -> Self {
        match n % 3 {
            0 => Kind::Char,
            1 => Kind::Int,
            _ => Kind::Float,
        }
    }

    // The bits of every CHAR or every INT.
    pub fn bits(self) -> Range<u32> {
        0..if self == Kind::Char { 256 } else { 65536 }
    }
}

impl fmt::Display for Kind {
    fn fmt<W: fmt::Write>(&self, f: &mut fmt::Formatter<W>) -> fmt::Result {
        let byte = *self as u8;
        write!(f, "{byte}")
    }
}

// An operand of the grid: five bytes, a type and the value's bytes, as they lie on the stack. Type 0 is no operand.
#[derive(Clone, Copy)]
pub struct Operand {
    kind: u8,
    number: Number,
}

impl Operand {
    // Its number, where it is of that type.
    pub fn of(&self, kind: Kind) -> Option<Number> {
        (self.kind == kind as u8).then_some(self.number)
    }
}

impl From<[u8; 5]> for Operand {
    fn from(bytes: [u8; 5]) -> Self {
        let [kind, a, b, c, d] = bytes;
        Operand {
            kind,
            number: decode(kind, a, b, c, d),
        }
    }
}

// It has 20 CHARs, then 27 INTs, then 146 FLOATs.
#[derive(Drop)]
pub struct Grid([Operand; 200]);

impl Grid {
    pub fn read(input: &mut impl Read) -> io::Result<Self> {
        let mut operands = [Operand::from([0; 5]); 200];
        for operand in &mut operands {
            let mut bytes = [0; 5];
            input.read_exact(&mut bytes)?;
            *operand = Operand::from(bytes);
        }
        Ok(Grid(operands))
    }

    pub fn operands(&self) -> &[Operand] {
        &self.0
    }

    // The operand of this type for a number drawn: every other one is of the grid.
    pub fn drawn(&self, kind: Kind, draw: u32) -> Number {
        let n = draw / 2;
        if draw % 2 == 0 {
            let place = match kind {
                Kind::Char => n % 20,
                Kind::Int => 20 + n % 27,
                Kind::Float => 47 + n % 146,
            };
            self.0[place as usize].number
        } else if kind == Kind::Float {
            moderate(n)
        } else {
            whole(kind, n)
        }
    }
}

// A FLOAT of a size from 1/8 to 32, with any significand.
fn moderate(n: u32) -> Number {
    let high = 62 + n % 4 + 128 * (n / 4 % 2);
    let second = n / 8 % 256;
    let third = n / 2048 % 256;
    let fourth = n / 524288 % 256;
    decode(
        Kind::Float as u8,
        high as u8,
        second as u8,
        third as u8,
        fourth as u8,
    )
}

// The CHAR or INT of these bits.
pub fn whole(kind: Kind, bits: u32) -> Number {
    let high = (bits / 256 % 256) as u8;
    let low = (bits % 256) as u8;
    if kind == Kind::Char {
        decode(Kind::Char as u8, low, 0, 0, 0)
    } else {
        decode(Kind::Int as u8, high, low, 0, 0)
    }
}

// Calls on every CHAR, on every INT, or on the FLOATs of the grid.
pub fn each<F: FnMut(Number)>(grid: &Grid, kind: Kind, mut call: F)
    requires { F.IsAlwaysCallable call }
{
    if kind == Kind::Float {
        for x in grid
            .operands()
            .iter()
            .filter_map(|operand| operand.of(kind))
        {
            call(x);
        }
    } else {
        for bits in kind.bits() {
            call(whole(kind, bits));
        }
    }
}

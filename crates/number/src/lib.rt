// Numbers of the stack machine: their bytes, two at one type, one against a whole number or the clock, their text.
// Document 01: "A number taken off the stack is a CHAR, an INT or a FLOAT, signed 8, signed 16, binary32."
#![tactic(auto)]

ghost use Rattle.std.specs.Prelude.{◌≡◌, ℤ};
ghost use Rattle.number.specs.declared.Number.{Number};

pub mod clock;
pub mod compare;
pub mod promotion;
pub mod text;
pub mod value;

use integer::Whole;

#[derive(Clone, Copy)]
pub enum Number {
    Char(i8),
    Int(i16),
    Float(f32),
}

// CHAR and INT: a whole number as a number of its type.
pub trait WholeNumber: Whole {
    ghost number: { ℤ → Number };

    fn number(self) -> Number
        ensures { result ≡ number (Self.value self) };
}

impl WholeNumber for i8 {
    ghost number = { λ z. Number.Char z };

    fn number(self) -> Number {
        Number::Char(self)
    }
}

impl WholeNumber for i16 {
    ghost number = { λ z. Number.Int z };

    fn number(self) -> Number {
        Number::Int(self)
    }
}

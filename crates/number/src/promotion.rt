// Two operands at one type. Document 01: "With a FLOAT operand both become FLOAT"; the guide, 8.7: the more precise of
// the two types.
ghost use Rattle.std.specs.Prelude.{◌≡◌};
ghost use Rattle.number.specs.Promotion.{promoted, first, second};

use crate::Number;

// Both at one type: two Numbers would leave their types apart.
#[derive(Clone, Copy)]
pub enum Pair {
    Chars(i8, i8),
    Ints(i16, i16),
    Floats(f32, f32),
}

pub fn promote(a: Number, b: Number) -> Pair
    ensures { result ≡ promoted a b }
{
    match (a, b) {
        (Number::Char(x), Number::Char(y)) => Pair::Chars(x, y),
        (Number::Char(x), Number::Int(y)) => Pair::Ints(x as i16, y),
        (Number::Char(x), Number::Float(y)) => Pair::Floats(x as f32, y),
        (Number::Int(x), Number::Char(y)) => Pair::Ints(x, y as i16),
        (Number::Int(x), Number::Int(y)) => Pair::Ints(x, y),
        (Number::Int(x), Number::Float(y)) => Pair::Floats(x as f32, y),
        (Number::Float(x), Number::Char(y)) => Pair::Floats(x, y as f32),
        (Number::Float(x), Number::Int(y)) => Pair::Floats(x, y as f32),
        (Number::Float(x), Number::Float(y)) => Pair::Floats(x, y),
    }
}

pub fn first_of(pair: Pair) -> Number
    ensures { result ≡ first pair }
{
    match pair {
        Pair::Chars(x, _) => Number::Char(x),
        Pair::Ints(x, _) => Number::Int(x),
        Pair::Floats(x, _) => Number::Float(x),
    }
}

pub fn second_of(pair: Pair) -> Number
    ensures { result ≡ second pair }
{
    match pair {
        Pair::Chars(_, y) => Number::Char(y),
        Pair::Ints(_, y) => Number::Int(y),
        Pair::Floats(_, y) => Number::Float(y),
    }
}

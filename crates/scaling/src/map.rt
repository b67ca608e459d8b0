// MAP of a, b, c, d, e: (a − b) × (e − d) / (c − b) + d.
ghost use Rattle.std.specs.Prelude.{◌≡◌, ◌≢◌, ◌-ℤ◌, nat_abs, pos, ◌<◌, ◌^◌};
ghost use Rattle.std.specs.Float.{binary32};
ghost use Rattle.std.specs.Float.Ieee.{sub};
ghost use Rattle.scaling.specs.Map.{wider, widest, exact, real, map_exact, map_whole, map_real};
ghost use Rattle.scaling.specs.Map.{mapped_as, mapped};

use integer::Whole;
use number::{Number, WholeNumber};
use operator::{ArithmeticError, Outcome};

// The types by how wide they are.
#[derive(Clone, Copy)]
pub enum Kind {
    Chars,
    Ints,
    Floats,
}

// The type, or that of the number if it is wider.
fn wider_of(kind: Kind, a: Number) -> Kind
    ensures { result ≡ wider kind a }
{
    match (kind, a) {
        (_, Number::Char(_)) => kind,
        (Kind::Chars, Number::Int(_)) => Kind::Ints,
        (_, Number::Int(_)) => kind,
        (_, Number::Float(_)) => Kind::Floats,
    }
}

// A whole number as it is.
fn exact_of(a: Number) -> i16
    ensures { result ≡ exact a }
{
    match a {
        Number::Char(x) => x as i16,
        Number::Int(x) => x,
        Number::Float(_) => 0,
    }
}

fn real_of(a: Number) -> f32
    ensures { result ≡ real a }
{
    match a {
        Number::Char(x) => x as f32,
        Number::Int(x) => x as f32,
        Number::Float(x) => x,
    }
}

// Of whole numbers, in 17 bits.
fn difference(a: Number, b: Number) -> i64
    ensures { (result ≡ exact a -ℤ exact b) × (nat_abs result < 2 ^ 17) }
{
    exact_of(a) as i64 - exact_of(b) as i64
}

fn real_difference(a: Number, b: Number) -> f32
    ensures { result ≡ sub binary32 (real a) (real b) }
{
    real_of(a) - real_of(b)
}

// The five operands, in the order in which they were pushed.
#[derive(Clone, Copy)]
struct Operands {
    a: Number,
    b: Number,
    c: Number,
    d: Number,
    e: Number,
}

impl Operands {
    fn widest(self) -> Kind
        ensures { result ≡ widest self.a self.b self.c self.d self.e }
    {
        let of_two = wider_of(wider_of(Kind::Chars, self.a), self.b);
        wider_of(wider_of(wider_of(of_two, self.c), self.d), self.e)
    }

    // Document 02, Q-3: "on whole numbers exact, the quotient cut toward zero". The product has up to 34 bits.
    fn map_exact(self) -> i64
        requires { exact self.c -ℤ exact self.b ≢ pos 0 }
        ensures { result ≡ map_exact (exact self.a) (exact self.b) (exact self.c) (exact self.d) (exact self.e) }
    {
        let product = difference(self.a, self.b) * difference(self.e, self.d);
        product / difference(self.c, self.b) + exact_of(self.d) as i64
    }

    // "the result reduced to the widest type; there equal b and c give fault 7": CHAR, and INT.
    fn map_whole<T: WholeNumber>(self) -> Outcome
        ensures { result ≡ map_whole T.width T.number
            (exact self.a) (exact self.b) (exact self.c) (exact self.d) (exact self.e) }
    {
        if difference(self.c, self.b) == 0 {
            return Err(ArithmeticError::DivisionByZero);
        }
        Ok(T::reduce(self.map_exact()).number())
    }

    // "With a FLOAT all five become FLOAT and each operation rounds once, as written."
    #[tactic(auto, unfolding(crate::specs::Map::map_real))]
    fn map_real(self) -> f32
        ensures { result ≡ map_real (real self.a) (real self.b) (real self.c) (real self.d) (real self.e) }
    {
        let product = real_difference(self.a, self.b) * real_difference(self.e, self.d);
        product / real_difference(self.c, self.b) + real_of(self.d)
    }

    fn map_as(self, kind: Kind) -> Outcome
        ensures { result ≡ mapped_as kind self.a self.b self.c self.d self.e }
    {
        match kind {
            Kind::Chars => self.map_whole::<i8>(),
            Kind::Ints => self.map_whole::<i16>(),
            Kind::Floats => Ok(Number::Float(self.map_real())),
        }
    }
}

#[tactic(auto, unfolding(crate::specs::Map::mapped))]
pub fn map(a: Number, b: Number, c: Number, d: Number, e: Number) -> Outcome
    ensures { result ≡ mapped a b c d e }
{
    let operands = Operands { a, b, c, d, e };
    operands.map_as(operands.widest())
}

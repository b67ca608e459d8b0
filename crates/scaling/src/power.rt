// POW of x, y: x to the power of y.
ghost use Rattle.std.specs.Prelude.{◌≡◌};
ghost use Rattle.std.specs.Int.{w16};
ghost use Rattle.std.proofs.Math.IntN.{pow};
ghost use Rattle.integer.specs.Modular.{wrapped};
ghost use Rattle.scaling.specs.Power.{whole_exponent, exponent, power_real, raised, power};

use integer::Whole;
use number::Number;
use number::promotion::{Pair, promote};
use operator::{ArithmeticError, Outcome};

const MAX_EXPONENT: i16 = 15;

// Document 02, Q-3: "POW takes a whole y from 0 to 15, else fault 8".
fn whole_exponent(y: i16) -> Option<u8>
    ensures { result ≡ whole_exponent y }
{
    if y < 0 {
        return None;
    }
    if y <= MAX_EXPONENT {
        Some(y as u8)
    } else {
        None
    }
}

fn exponent_of(y: Number) -> Option<u8>
    ensures { result ≡ exponent y }
{
    match y {
        Number::Char(z) => whole_exponent(z as i16),
        Number::Int(z) => whole_exponent(z),
        Number::Float(_) => None,
    }
}

// "multiplying from the left starting at 1": modulo 65,536, of which modulo 256 is a part.
fn power16(x: i16, n: u8) -> i16
    ensures { result ≡ wrapped w16 (pow x n) }
{
    let mut product: i16 = 1;
    for _ in 0..n {
        product = product.multiply(x);
    }
    product
}

// Of FLOATs: each step rounds, where the step of whole numbers wraps. Two definitions, so two functions.
fn power_real(x: f32, n: u8) -> f32
    ensures { result ≡ power_real x n }
{
    let mut product: f32 = 1.0;
    for _ in 0..n {
        product = product * x;
    }
    product
}

fn raise(pair: Pair, n: u8) -> Number
    ensures { result ≡ raised pair n }
{
    match pair {
        Pair::Chars(x, _) => Number::Char(i8::reduce(power16(x as i16, n) as i64)),
        Pair::Ints(x, _) => Number::Int(power16(x, n)),
        Pair::Floats(x, _) => Number::Float(power_real(x, n)),
    }
}

#[tactic(auto, unfolding(crate::specs::Power::power))]
pub fn power_of(x: Number, y: Number) -> Outcome
    ensures { result ≡ power x y }
{
    let n = exponent_of(y).ok_or(ArithmeticError::OutOfRange)?;
    Ok(raise(promote(x, y), n))
}

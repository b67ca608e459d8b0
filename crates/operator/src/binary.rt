// The operators of two operands. CHAR and INT share each definition and each law, with the width as parameter.
ghost use Rattle.std.specs.Prelude.{◌≡◌, ◌≢◌, pos, Ok, IfOk, IfErr};
ghost use Rattle.operator.specs.Arithmetic.{whole, real, arithmetic};
ghost use Rattle.operator.specs.Binary.{ordered, ordered_floats, compared, connected, whole_bits, bitwise};
ghost use Rattle.operator.specs.Binary.{replaces, extremum, binary};
ghost use Rattle.operator.specs.Outcome.{flag};

use crate::operators::{Arithmetic, Binary, Comparison, Connective, Extremum};
use crate::{ArithmeticError, Outcome};
use integer::Whole;
use number::promotion::{Pair, first_of, promote, second_of};
use number::value::is_zero;
use number::{Number, WholeNumber};

// The guide, appendix C: 1 where it holds, else 0, a CHAR.
pub fn flagged(holds: bool) -> Outcome
    ensures { result ≡ flag holds }
{
    if holds {
        Ok(Number::Char(1))
    } else {
        Ok(Number::Char(0))
    }
}

// Document 01: "7 whole divisor zero".
fn nonzero<T: Whole>(divisor: T) -> Result<T, ArithmeticError>
    ensures ok { IfOk result (λ y. (y ≡ divisor) × (T.value divisor ≢ pos 0)) }
    ensures err { IfErr result (λ e. (e ≡ ArithmeticError.DivisionByZero) × (T.value divisor ≡ pos 0)) }
{
    if divisor.is_zero() {
        Err(ArithmeticError::DivisionByZero)
    } else {
        Ok(divisor)
    }
}

#[tactic(auto, unfolding(crate::specs::Arithmetic::whole))]
fn calculate_wholes<T: WholeNumber>(operator: Arithmetic, x: T, y: T) -> Outcome
    ensures { result ≡ whole T.width T.number operator (T.value x) (T.value y) }
{
    match operator {
        Arithmetic::Plus => Ok(x.add(y).number()),
        Arithmetic::Minus => Ok(x.subtract(y).number()),
        Arithmetic::Times => Ok(x.multiply(y).number()),
        Arithmetic::DividedBy => Ok(x.quotient(nonzero(y)?).number()),
        Arithmetic::Modulus => Ok(x.remainder(nonzero(y)?).number()),
    }
}

#[tactic(auto, unfolding(crate::specs::Arithmetic::real))]
fn calculate_floats(operator: Arithmetic, x: f32, y: f32) -> Outcome
    ensures { result ≡ real operator x y }
{
    match operator {
        Arithmetic::Plus => Ok(Number::Float(x + y)),
        Arithmetic::Minus => Ok(Number::Float(x - y)),
        Arithmetic::Times => Ok(Number::Float(x * y)),
        Arithmetic::DividedBy => Ok(Number::Float(x / y)),
        Arithmetic::Modulus => Err(ArithmeticError::OutOfRange),
    }
}

fn calculate(operator: Arithmetic, pair: Pair) -> Outcome
    ensures { result ≡ arithmetic operator pair }
{
    match pair {
        Pair::Chars(x, y) => calculate_wholes(operator, x, y),
        Pair::Ints(x, y) => calculate_wholes(operator, x, y),
        Pair::Floats(x, y) => calculate_floats(operator, x, y),
    }
}

// One function over `PartialOrd` would be no plainer than this and the next: its contract would be by `partial_cmp`,
// with a law for each operator that this is the order of whole numbers, and IEEE's of FLOATs.
#[tactic(auto, unfolding(crate::specs::Binary::ordered))]
fn compare_wholes(operator: Comparison, x: i16, y: i16) -> bool
    ensures { result ≡ ordered operator x y }
{
    match operator {
        Comparison::Equals => x == y,
        Comparison::NotEquals => x != y,
        Comparison::LessThan => x < y,
        Comparison::LessOrEqual => x <= y,
        Comparison::GreaterThan => x > y,
        Comparison::GreaterOrEqual => x >= y,
    }
}

#[tactic(auto, unfolding(crate::specs::Binary::ordered_floats))]
fn compare_floats(operator: Comparison, x: f32, y: f32) -> bool
    ensures { result ≡ ordered_floats operator x y }
{
    match operator {
        Comparison::Equals => x == y,
        Comparison::NotEquals => x != y,
        Comparison::LessThan => x < y,
        Comparison::LessOrEqual => x <= y,
        Comparison::GreaterThan => x > y,
        Comparison::GreaterOrEqual => x >= y,
    }
}

fn compare(operator: Comparison, pair: Pair) -> bool
    ensures { result ≡ compared operator pair }
{
    match pair {
        Pair::Chars(x, y) => compare_wholes(operator, x as i16, y as i16),
        Pair::Ints(x, y) => compare_wholes(operator, x, y),
        Pair::Floats(x, y) => compare_floats(operator, x, y),
    }
}

#[tactic(auto, unfolding(crate::specs::Binary::connected))]
fn connect(operator: Connective, x: bool, y: bool) -> bool
    ensures { result ≡ connected operator x y }
{
    match operator {
        Connective::And => x && y,
        Connective::Or => x || y,
        Connective::Xor => x != y,
    }
}

#[tactic(auto, unfolding(crate::specs::Binary::whole_bits))]
fn combine_wholes<T: WholeNumber>(operator: Connective, x: T, y: T) -> Outcome
    ensures { result ≡ Ok (T.number (whole_bits T.width operator (T.value x) (T.value y))) }
{
    match operator {
        Connective::And => Ok(x.and(y).number()),
        Connective::Or => Ok(x.or(y).number()),
        Connective::Xor => Ok(x.xor(y).number()),
    }
}

fn combine(operator: Connective, pair: Pair) -> Outcome
    ensures { result ≡ bitwise operator pair }
{
    match pair {
        Pair::Chars(x, y) => combine_wholes(operator, x, y),
        Pair::Ints(x, y) => combine_wholes(operator, x, y),
        Pair::Floats(_, _) => Err(ArithmeticError::OutOfRange),
    }
}

fn second_replaces(operator: Extremum, pair: Pair) -> bool
    ensures { result ≡ replaces operator pair }
{
    match operator {
        Extremum::Min => compare(Comparison::GreaterThan, pair),
        Extremum::Max => compare(Comparison::LessThan, pair),
    }
}

pub fn choose(operator: Extremum, pair: Pair) -> Number
    ensures { result ≡ extremum operator pair }
{
    if second_replaces(operator, pair) {
        second_of(pair)
    } else {
        first_of(pair)
    }
}

// Each operator of two operands; `a` was pushed first.
#[tactic(auto, unfolding(crate::specs::Binary::binary))]
pub fn apply(operator: Binary, a: Number, b: Number) -> Outcome
    ensures { result ≡ binary operator a b }
{
    match operator {
        Binary::Arithmetic(o) => calculate(o, promote(a, b)),
        Binary::Comparison(o) => flagged(compare(o, promote(a, b))),
        Binary::Logical(o) => flagged(connect(o, !is_zero(a), !is_zero(b))),
        Binary::Bitwise(o) => combine(o, promote(a, b)),
        Binary::Extremum(o) => Ok(choose(o, promote(a, b))),
    }
}

// The operators of one operand.
ghost use Rattle.std.specs.Prelude.{◌≡◌};
ghost use Rattle.float.specs.Whole.{whole_of};
ghost use Rattle.operator.specs.Conversion.{converted_whole, converted_float, converted, value_or};
ghost use Rattle.operator.specs.Unary.{negated, absolute, whole_square_root, square_root, unary};

use crate::binary::flagged;
use crate::operators::{Arithmetic, Binary, Connective, Conversion, Unary};
use crate::{ArithmeticError, Outcome, binary};
use float::whole::{Rounding, to_whole};
use integer::Whole;
use number::value::is_zero;
use number::{Number, WholeNumber};

fn negate(a: Number) -> Number
    ensures { result ≡ negated a }
{
    match a {
        Number::Char(x) => Number::Char(x.negate()),
        Number::Int(x) => Number::Int(x.negate()),
        Number::Float(x) => Number::Float(-x),
    }
}

fn absolute_value(a: Number) -> Number
    ensures { result ≡ absolute a }
{
    match a {
        Number::Char(x) => if x < 0 { negate(a) } else { a },
        Number::Int(x) => if x < 0 { negate(a) } else { a },
        Number::Float(x) => Number::Float(x.abs()),
    }
}

#[tactic(auto, unfolding(crate::specs::Conversion::converted_whole))]
fn convert_whole(conversion: Conversion, x: i16) -> Outcome
    ensures { result ≡ converted_whole conversion x }
{
    match conversion {
        Conversion::ToChar => Ok(Number::Char(i8::from_bits(integer::low_byte(x)))),
        Conversion::ToInt => Ok(Number::Int(x)),
        Conversion::ToFloat => Ok(Number::Float(x as f32)),
        Conversion::Round => Ok(Number::Int(x)),
        Conversion::Floor => Ok(Number::Int(x)),
        Conversion::Ceil => Ok(Number::Int(x)),
    }
}

fn float_to_whole<T: WholeNumber>(x: f32, rounding: Rounding) -> Outcome
    ensures { result ≡ value_or T.number (whole_of rounding T.MAX x) }
{
    let z = to_whole(x, rounding, T::MAX).ok_or(ArithmeticError::OutOfRange)?;
    Ok(T::reduce(z as i64).number())
}

#[tactic(auto, unfolding(crate::specs::Conversion::converted_float))]
fn convert_float(conversion: Conversion, x: f32) -> Outcome
    ensures { result ≡ converted_float conversion x }
{
    match conversion {
        Conversion::ToChar => float_to_whole::<i8>(x, Rounding::TowardZero),
        Conversion::ToInt => float_to_whole::<i16>(x, Rounding::TowardZero),
        Conversion::ToFloat => Ok(Number::Float(x)),
        Conversion::Round => float_to_whole::<i16>(x, Rounding::HalfAway),
        Conversion::Floor => float_to_whole::<i16>(x, Rounding::Down),
        Conversion::Ceil => float_to_whole::<i16>(x, Rounding::Up),
    }
}

fn convert(conversion: Conversion, a: Number) -> Outcome
    ensures { result ≡ converted conversion a }
{
    match a {
        Number::Char(x) => convert_whole(conversion, x as i16),
        Number::Int(x) => convert_whole(conversion, x),
        Number::Float(x) => convert_float(conversion, x),
    }
}

fn whole_root_of<T: WholeNumber>(x: T) -> Outcome
    ensures { result ≡ whole_square_root T.number (T.value x) }
{
    let z = x.exact();
    if z < 0 {
        return Err(ArithmeticError::OutOfRange);
    }
    Ok(T::reduce(root::whole_root(z as u64) as i64).number())
}

fn root_of(a: Number) -> Outcome
    ensures { result ≡ square_root a }
{
    match a {
        Number::Char(x) => whole_root_of(x),
        Number::Int(x) => whole_root_of(x),
        Number::Float(x) => Ok(Number::Float(float::sqrt::sqrt(x))),
    }
}

#[tactic(auto, unfolding(crate::specs::Unary::unary))]
pub fn apply(operator: Unary, a: Number) -> Outcome
    ensures { result ≡ unary operator a }
{
    match operator {
        Unary::Increment => binary::apply(Binary::Arithmetic(Arithmetic::Plus), a, Number::Char(1)),
        Unary::Decrement => binary::apply(
            Binary::Arithmetic(Arithmetic::Minus),
            a,
            Number::Char(1),
        ),
        Unary::UnaryMinus => Ok(negate(a)),
        Unary::LogicalNot => flagged(is_zero(a)),
        Unary::BitwiseNot => binary::apply(Binary::Bitwise(Connective::Xor), a, Number::Char(-1)),
        Unary::Convert(conversion) => convert(conversion, a),
        Unary::Abs => Ok(absolute_value(a)),
        Unary::Sq => binary::apply(Binary::Arithmetic(Arithmetic::Times), a, a),
        Unary::Sqrt => root_of(a),
    }
}

// Which instruction is which operator, and which types an operator takes at which place. The matches are the tables of
// the guide's appendix C and table 2 written out, an arm for each row.
ghost use Rattle.std.specs.Prelude.{◌≡◌, None};
ghost use Rattle.operator.specs.Instruction.{lookup, scaling_table, unary_table, operator_of};
ghost use Rattle.operator.specs.Instruction.{conversion_types, unary_types, arithmetic_types, binary_types};
ghost use Rattle.operator.specs.Instruction.{scaling_types, types_of, includes};

use crate::operators::{
    Arithmetic, Binary, Comparison, Connective, Conversion, Extremum, Operator, Scaling, Unary,
};

// The sets of types that a pop may take.
#[derive(Clone, Copy)]
pub enum Types {
    AnyNumber,
    CharOrInt,
    IntOrFloat,
    CharOrFloat,
    AnyString,
    AnyValue,
}

#[tactic(auto, unfolding(crate::specs::Instruction::lookup))]
fn scaling_operator(instruction: u8) -> Option<Operator>
    ensures { result ≡ lookup instruction scaling_table None }
{
    match instruction {
        38 => Some(Operator::Scale(Scaling::Constrain)),
        39 => Some(Operator::Scale(Scaling::Map)),
        40 => Some(Operator::Scale(Scaling::Power)),
        _ => None,
    }
}

#[tactic(auto, unfolding(crate::specs::Instruction::lookup))]
fn unary_operator(instruction: u8) -> Option<Operator>
    ensures { result ≡ lookup instruction unary_table
        (lookup instruction scaling_table None) }
{
    match instruction {
        7 => Some(Operator::OfOne(Unary::Increment)),
        8 => Some(Operator::OfOne(Unary::Decrement)),
        14 => Some(Operator::OfOne(Unary::UnaryMinus)),
        24 => Some(Operator::OfOne(Unary::LogicalNot)),
        28 => Some(Operator::OfOne(Unary::BitwiseNot)),
        29 => Some(Operator::OfOne(Unary::Convert(Conversion::ToChar))),
        30 => Some(Operator::OfOne(Unary::Convert(Conversion::ToInt))),
        31 => Some(Operator::OfOne(Unary::Convert(Conversion::ToFloat))),
        32 => Some(Operator::OfOne(Unary::Convert(Conversion::Round))),
        33 => Some(Operator::OfOne(Unary::Convert(Conversion::Floor))),
        34 => Some(Operator::OfOne(Unary::Convert(Conversion::Ceil))),
        37 => Some(Operator::OfOne(Unary::Abs)),
        41 => Some(Operator::OfOne(Unary::Sq)),
        42 => Some(Operator::OfOne(Unary::Sqrt)),
        _ => scaling_operator(instruction),
    }
}

#[tactic(auto, unfolding(crate::specs::Instruction::operator_of, crate::specs::Instruction::lookup))]
pub fn operator(instruction: u8) -> Option<Operator>
    ensures { result ≡ operator_of instruction }
{
    match instruction {
        9 => Some(Operator::OfTwo(Binary::Arithmetic(Arithmetic::Plus))),
        10 => Some(Operator::OfTwo(Binary::Arithmetic(Arithmetic::Minus))),
        11 => Some(Operator::OfTwo(Binary::Arithmetic(Arithmetic::Times))),
        12 => Some(Operator::OfTwo(Binary::Arithmetic(Arithmetic::DividedBy))),
        13 => Some(Operator::OfTwo(Binary::Arithmetic(Arithmetic::Modulus))),
        15 => Some(Operator::OfTwo(Binary::Comparison(Comparison::Equals))),
        16 => Some(Operator::OfTwo(Binary::Comparison(Comparison::NotEquals))),
        17 => Some(Operator::OfTwo(Binary::Comparison(Comparison::LessThan))),
        18 => Some(Operator::OfTwo(Binary::Comparison(Comparison::LessOrEqual))),
        19 => Some(Operator::OfTwo(Binary::Comparison(Comparison::GreaterThan))),
        20 => Some(Operator::OfTwo(Binary::Comparison(Comparison::GreaterOrEqual))),
        21 => Some(Operator::OfTwo(Binary::Logical(Connective::And))),
        22 => Some(Operator::OfTwo(Binary::Logical(Connective::Or))),
        23 => Some(Operator::OfTwo(Binary::Logical(Connective::Xor))),
        25 => Some(Operator::OfTwo(Binary::Bitwise(Connective::And))),
        26 => Some(Operator::OfTwo(Binary::Bitwise(Connective::Or))),
        27 => Some(Operator::OfTwo(Binary::Bitwise(Connective::Xor))),
        35 => Some(Operator::OfTwo(Binary::Extremum(Extremum::Min))),
        36 => Some(Operator::OfTwo(Binary::Extremum(Extremum::Max))),
        _ => unary_operator(instruction),
    }
}

fn conversion_types(conversion: Conversion) -> Types
    ensures { result ≡ conversion_types conversion }
{
    match conversion {
        Conversion::ToChar => Types::IntOrFloat,
        Conversion::ToInt => Types::CharOrFloat,
        Conversion::ToFloat => Types::CharOrInt,
        Conversion::Round => Types::AnyNumber,
        Conversion::Floor => Types::AnyNumber,
        Conversion::Ceil => Types::AnyNumber,
    }
}

fn unary_types(operator: Unary) -> Types
    ensures { result ≡ unary_types operator }
{
    match operator {
        Unary::Increment => Types::AnyNumber,
        Unary::Decrement => Types::AnyNumber,
        Unary::UnaryMinus => Types::AnyNumber,
        Unary::LogicalNot => Types::AnyNumber,
        Unary::BitwiseNot => Types::CharOrInt,
        Unary::Convert(conversion) => conversion_types(conversion),
        Unary::Abs => Types::AnyNumber,
        Unary::Sq => Types::AnyNumber,
        Unary::Sqrt => Types::AnyNumber,
    }
}

fn arithmetic_types(operator: Arithmetic) -> Types
    ensures { result ≡ arithmetic_types operator }
{
    match operator {
        Arithmetic::Plus => Types::AnyNumber,
        Arithmetic::Minus => Types::AnyNumber,
        Arithmetic::Times => Types::AnyNumber,
        Arithmetic::DividedBy => Types::AnyNumber,
        Arithmetic::Modulus => Types::CharOrInt,
    }
}

fn binary_types(operator: Binary) -> Types
    ensures { result ≡ binary_types operator }
{
    match operator {
        Binary::Arithmetic(o) => arithmetic_types(o),
        Binary::Comparison(_) => Types::AnyNumber,
        Binary::Logical(_) => Types::AnyNumber,
        Binary::Bitwise(_) => Types::CharOrInt,
        Binary::Extremum(_) => Types::AnyNumber,
    }
}

// Document 02, Q-3: "a FLOAT y is fault 6".
fn scaling_types(operator: Scaling, place: u8) -> Types
    ensures { result ≡ scaling_types operator place }
{
    match operator {
        Scaling::Constrain => Types::AnyNumber,
        Scaling::Map => Types::AnyNumber,
        Scaling::Power => {
            if place == 0 {
                Types::AnyNumber
            } else {
                Types::CharOrInt
            }
        }
    }
}

// The types that the operator takes at a place, 0 that of the operand pushed first.
pub fn types_of(operator: Operator, place: u8) -> Types
    ensures { result ≡ types_of operator place }
{
    match operator {
        Operator::OfOne(o) => unary_types(o),
        Operator::OfTwo(o) => binary_types(o),
        Operator::Scale(o) => scaling_types(o, place),
    }
}

#[tactic(auto, unfolding(crate::specs::Instruction::includes))]
pub fn takes(types: Types, kind: u8) -> bool
    ensures { result ≡ includes types kind }
{
    match types {
        Types::AnyNumber => (kind == 1) | (kind == 2) | (kind == 4),
        Types::CharOrInt => (kind == 1) | (kind == 2),
        Types::IntOrFloat => (kind == 2) | (kind == 4),
        Types::CharOrFloat => (kind == 1) | (kind == 4),
        Types::AnyString => kind == 3,
        Types::AnyValue => (kind == 3) | ((kind == 1) | (kind == 2) | (kind == 4)),
    }
}

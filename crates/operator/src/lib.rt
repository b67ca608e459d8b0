// The operators on numbers: which instruction is which, the types it takes, and what it answers.
#![tactic(auto)]

pub mod binary;
pub mod instruction;
pub mod operators;
pub mod unary;

use number::Number;

// Why an operator has no answer. `fault_of` of specs/Outcome.antt gives document 01's fault numbers.
#[derive(Clone, Copy, Debug, PartialEq, Eq)]
pub enum ArithmeticError {
    DivisionByZero,
    OutOfRange,
}

// What an operator answers.
pub type Outcome = Result<Number, ArithmeticError>;

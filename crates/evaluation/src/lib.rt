// What an operator does on the stack: its operands come off one below another, its answer goes on.
#![tactic(auto)]

pub mod operate;

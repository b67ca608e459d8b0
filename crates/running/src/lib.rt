// What programs do with the kernel, through the functions that C calls: rounds, and what they print.
#![tactic(auto)]

pub mod bench;
pub mod board;
pub mod instructions;

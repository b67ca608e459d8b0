// The operations on the disc alone.
#![tactic(auto)]

pub mod operations;

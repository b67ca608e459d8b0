// Where a process goes on: jumps, loops and the wait for the clock; and the clock itself, pushed.
#![tactic(auto)]

pub mod clock;
pub mod flow;

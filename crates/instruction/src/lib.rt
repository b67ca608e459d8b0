// One instruction of one process: a function of its program bytes, its stack, the clock and its own variables.
#![tactic(auto)]

pub mod decode;
pub mod execute;
pub mod reach;
pub mod values;

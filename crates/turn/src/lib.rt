// A turn of one process and a round of all, on buffers that are known to be good.
#![tactic(auto)]

pub mod round;
pub mod take;

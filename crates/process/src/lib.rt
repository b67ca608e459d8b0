// One process in its slot: the step that its instruction takes, its record after it, and its end.
#![tactic(auto)]

pub mod advance;
pub mod ending;
pub mod fetch;
pub mod setting;

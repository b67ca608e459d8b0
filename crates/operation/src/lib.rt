// The operations on disc and work area, for every buffer of every length. A refused one writes nothing.
#![tactic(auto)]

pub mod commands;
pub mod files;
pub mod format;
pub mod list;
pub mod turns;

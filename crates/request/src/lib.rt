// What disc and process table answer to an instruction that reaches beyond its process.
//
// Each function takes disc, work area, slot, process and step by themselves: a struct of them would hold the two loans,
// and be taken apart again where a part of the disc or of the area is lent on.
#![tactic(auto)]

pub mod file;
pub mod fork;
pub mod open;
pub mod start;
pub mod wait;

// Where a program is started: the slot, and its file's place in the directory.
#[derive(Clone, Copy)]
pub struct Launch {
    pub slot: usize,
    pub place: usize,
}

// The work area in code: its parts read and written where they lie, and the searches among its records.
//
// It is lent as a slice, with its length in each contract, and not as an array: an array's reference comes out of a
// slice in an Option, which lies otherwise where pointers are shorter (tools/ports/lint.py). A slot is a plain place
// among the ten: a type of its own would be taken apart at every use.
#![tactic(auto)]

pub mod ending;
pub mod processes;
pub mod records;
pub mod variables;

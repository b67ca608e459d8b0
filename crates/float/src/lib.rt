// FLOAT, binary32: its bytes, whole numbers out of it, exact comparison with whole numbers, what PRINT shows of it, its
// root.
#![tactic(auto)]

pub mod bits;
pub mod compare;
pub mod decode;
pub mod print;
pub mod quotient;
pub mod sqrt;
pub mod whole;

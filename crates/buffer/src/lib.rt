// Byte buffers and what every crate above says of them: two-byte fields, and parts.
#![tactic(auto)]

pub mod bytes;

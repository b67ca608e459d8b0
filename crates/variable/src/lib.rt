// Variable memory: 256 bytes and 25 entries that all processes share, in the 407 bytes at the front of the work area.
// They are lent as a slice, as the work area is (crate area says why).
#![tactic(auto)]

pub mod assign;
pub mod free;
pub mod table;

use place::{MAX_RUNS, Run};

pub const MEMORY_SIZE: usize = 256;

pub const MAX_VARIABLES: usize = 25;

pub const ENTRIES_AT: usize = 256;

pub const ENTRY_SIZE: usize = 6;

pub const COUNT_AT: usize = 406;

pub const VARIABLES_SIZE: usize = 407;

pub const MAX_STRING: u16 = 30;

pub const VALUE_SIZE: usize = 32;

// Document 01: "25 variable entries of name 1, type 1, address 1, size 1, process ID 2."
#[derive(Clone, Copy)]
pub struct Variable {
    pub name: u8,
    pub kind: u8,
    pub address: u8,
    pub size: u8,
    pub owner: u16,
}

// The first count entries are variables; the others are not read and keep their bytes. Only the definitions have it
// whole: the functions read and write its bytes.
#[derive(Clone, Copy)]
pub struct Variables {
    pub memory: [u8; MEMORY_SIZE],
    pub entries: [Variable; MAX_VARIABLES],
    pub count: u8,
}

// A typed value, for the definitions: its first size bytes, as they lie on the stack without length and type.
#[derive(Clone, Copy)]
pub struct Value {
    pub kind: u8,
    pub size: u8,
    pub bytes: [u8; VALUE_SIZE],
}

// Why a new variable has no place: both are document 01's fault 10.
#[derive(Clone, Copy, PartialEq, Eq, Debug)]
pub enum Unplaced {
    NoEntry,
    NoRun,
}

// What a SET leaves, for the definitions.
#[derive(Clone, Copy)]
pub struct Assigned {
    pub placing: Result<usize, Unplaced>,
    pub variables: Variables,
}

// The runs that some variables take: the first count. In an array, since no heap is there.
#[derive(Clone, Copy)]
pub struct Taken {
    pub runs: [Run; MAX_RUNS],
    pub count: usize,
}

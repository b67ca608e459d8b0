// The stack of one process: what lies on top, and what an instruction does.
#![tactic(auto)]

pub mod ends;
pub mod frame;
pub mod tops;

use machine::limits::STACK_SIZE;
use number::Number;

// Document 01: "a string as bytes, length, 3". A type stays the byte that it lies as: a stack and variable memory may
// hold any byte there, and the kernel's definitions (`push_item`, `assigns`, `reads`) take it as a number.
pub const STRING_KIND: u8 = 3;

// The value on top: its type, its first byte and its length.
#[derive(Clone, Copy)]
pub struct TopValue {
    pub kind: u8,
    pub at: usize,
    pub len: usize,
}

// The number on top and how many bytes lie below it.
#[derive(Clone, Copy)]
pub struct TopNumber {
    pub number: Number,
    pub below: usize,
}

// What an instruction does with its bytes: pushes or prints them, assigns them to the variable of that name and type,
// writes them, or takes them for a name.
#[derive(Clone, Copy)]
pub enum Action {
    Push,
    Print,
    Assign(u8, u8),
    Stop,
    Open(Number),
    Close,
    Write,
    Read(u8),
    ReadString,
    Fork,
    Await(Number),
}

// One step of a process: it keeps the first `kept` bytes of its stack, the first `len` bytes are for the action, and it
// goes on at pc. They stand first, so that a machine of words copies them by words.
#[derive(Clone, Copy)]
pub struct Step {
    pub bytes: [u8; STACK_SIZE],
    pub action: Action,
    pub pc: u16,
    pub loopstart: u16,
    pub kept: u8,
    pub len: u8,
}

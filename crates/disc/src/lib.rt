// What a disc is: its layout, names, the directory of ten entries, and which discs are good.
//
// It is lent as a slice: it has one of two lengths, so no array holds it, and a struct round the slice would be made
// anew at each call, of which every one is lent another disc. `Readable` is what all functions ask of it.
#![tactic(auto)]

pub mod directory;
pub mod good;
pub mod layout;
pub mod name;

ghost use Rattle.std.specs.Prelude.{◌≡◌};
ghost use Rattle.disc.specs.Directory.{run_of};

use layout::NAME_SIZE;
use place::Run;

// Document 01: "Ten directory entries of 16 bytes from 0: name 12, start 2, length 2."
#[derive(Clone, Copy)]
pub struct Entry {
    pub name: [u8; NAME_SIZE],
    pub start: u16,
    pub len: u16,
}

impl Entry {
    // The bytes that its file takes.
    pub fn run(&self) -> Run
        ensures { result ≡ run_of self.now }
    {
        Run {
            start: self.start,
            len: self.len,
        }
    }
}

// Runs the outside vectors, calls and answers of another implementation, from data/vectors, and prints what comes out.
// tools/vectors/generate.py writes that file, and the file stdout that the gate compares with.
#![tactic(auto)]

use disc_operation::operations::{files, free_space, retrieve, store};
use std::fs::File;
use std::io;
use std::io::{BufReader, Read};
use store::answer::number;
use vectors::{print_line, read_length, run_all};

// No buffer of a vector is longer, and no name.
const LONGEST: usize = 4096;

const LONGEST_NAME: usize = 16;

#[derive(Clone, Copy)]
enum Operation {
    Store,
    Retrieve,
    Files,
    FreeSpace,
}

// Told by the letter of a vector. Free space has 'u', for unused, and each letter that is no other's.
impl From<u8> for Operation {
    fn from(letter: u8) -> Self {
        match letter {
            b's' => Operation::Store,
            b'r' => Operation::Retrieve,
            b'f' => Operation::Files,
            _ => Operation::FreeSpace,
        }
    }
}

// Room for the buffers of a vector.
#[derive(Drop)]
struct Room {
    disc: [u8; LONGEST],
    name: [u8; LONGEST_NAME],
    bytes: [u8; LONGEST],
    out: [u8; LONGEST],
}

// What follows the letter of a vector: the buffers of the call.
#[derive(Drop)]
struct Buffers<'a> {
    disc: &'a mut [u8],
    name: &'a [u8],
    bytes: &'a [u8],
    out: &'a mut [u8],
}

impl<'a> Buffers<'a> {
    fn read(input: &mut impl Read, room: &'a mut Room) -> io::Result<Self> {
        Ok(Buffers {
            disc: read_buffer(input, &mut room.disc)?,
            name: read_buffer(input, &mut room.name)?,
            bytes: read_buffer(input, &mut room.bytes)?,
            out: read_buffer(input, &mut room.out)?,
        })
    }
}

// A buffer's length, then its bytes, which lie in the front of its room.
fn read_buffer<'a, const N: usize>(
    input: &mut impl Read,
    room: &'a mut [u8; N],
) -> io::Result<&'a mut [u8]> {
    let length = read_length(input, N)?;
    let bytes = &mut room[..length];
    input.read_exact(bytes)?;
    Ok(bytes)
}

fn run(rt: &impl Print, letter: u8, buffers: Buffers) -> io::Result<()> {
    let Buffers {
        disc,
        name,
        bytes,
        out,
    } = buffers;
    let answer = match Operation::from(letter) {
        Operation::Store => store(disc, name, bytes),
        Operation::Retrieve => retrieve(disc, name, out),
        Operation::Files => files(disc, out),
        Operation::FreeSpace => free_space(disc),
    };
    print_line(rt, letter, number(answer), &[disc, out])
}

fn main(rt: HostRuntime) -> io::Result<()> {
    let file = File::open(&rt, "vectors")?;
    let mut room = Room {
        disc: [0; LONGEST],
        name: [0; LONGEST_NAME],
        bytes: [0; LONGEST],
        out: [0; LONGEST],
    };
    run_all(&mut BufReader::new(rt.alloc(), file)?, |input, letter| {
        run(&rt, letter, Buffers::read(input, &mut room)?)
    })
}

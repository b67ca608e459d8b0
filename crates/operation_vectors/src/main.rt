// Runs the outside vectors of the operations on both buffers, calls and answers of another implementation, from
// data/vectors, and prints what comes out. tools/vectors/generate.py writes that file, and the file stdout that the
// gate compares with.
#![tactic(auto)]

use operation::commands::{kill, resume, share, suspend};
use operation::files::{erase, run};
use operation::format::{boot, format};
use operation::list::list;
use operation::turns::{round, turn};
use std::fs::File;
use std::io;
use std::io::{BufReader, Read};
use store::answer::number;
use vectors::{print_line, read_length, run_all};

// No buffer of a vector is longer.
const LONGEST: usize = 4096;

#[derive(Clone, Copy)]
enum Operation {
    Format,
    Boot,
    Erase,
    Run,
    Suspend,
    Resume,
    Kill,
    Share,
    List,
    Turn,
    Round,
}

// Told by the letter of a vector. Resume has 'c' and share 'h'; round has 'o', and each letter that is no other's.
impl From<u8> for Operation {
    fn from(letter: u8) -> Self {
        match letter {
            b'f' => Operation::Format,
            b'b' => Operation::Boot,
            b'e' => Operation::Erase,
            b'r' => Operation::Run,
            b's' => Operation::Suspend,
            b'c' => Operation::Resume,
            b'k' => Operation::Kill,
            b'h' => Operation::Share,
            b'l' => Operation::List,
            b't' => Operation::Turn,
            _ => Operation::Round,
        }
    }
}

// The buffers of the last vector, by which the next one is told, and bytes that were in them before.
#[derive(Drop)]
struct Kept {
    disc: [u8; LONGEST],
    area: [u8; LONGEST],
    out: [u8; LONGEST],
}

// Room for the buffers of a vector. It runs on copies.
#[derive(Drop)]
struct Room {
    name: [u8; LONGEST],
    disc: [u8; LONGEST],
    area: [u8; LONGEST],
    out: [u8; LONGEST],
}

// What follows the letter of a vector: an ID, a share or a clock, and the buffers of the call.
#[derive(Drop)]
struct Arguments<'a> {
    first: u32,
    second: u32,
    name: &'a [u8],
    disc: &'a mut [u8],
    area: &'a mut [u8],
    out: &'a mut [u8],
}

impl<'a> Arguments<'a> {
    fn read(input: &mut impl Read, kept: &mut Kept, room: &'a mut Room) -> io::Result<Self> {
        Ok(Arguments {
            first: read_number(input)?,
            second: read_number(input)?,
            name: read_changed(input, &mut [0; LONGEST], &mut room.name)?,
            disc: read_changed(input, &mut kept.disc, &mut room.disc)?,
            area: read_changed(input, &mut kept.area, &mut room.area)?,
            out: read_changed(input, &mut kept.out, &mut room.out)?,
        })
    }
}

fn read_byte(input: &mut impl Read) -> io::Result<u8> {
    let mut byte = [0; 1];
    input.read_exact(&mut byte)?;
    Ok(byte[0])
}

// Four bytes, low byte first.
fn read_number(input: &mut impl Read) -> io::Result<u32> {
    let mut bytes = [0; 4];
    input.read_exact(&mut bytes)?;
    Ok(u32::from_le_bytes(bytes))
}

// Reads the next buffer of a vector, which is given by what differs from what was kept: its length, then runs of bytes
// that stay and of new ones. Answers a copy in the front of its room.
fn read_changed<'a>(
    input: &mut impl Read,
    kept: &mut [u8; LONGEST],
    room: &'a mut [u8; LONGEST],
) -> io::Result<&'a mut [u8]> {
    let length = read_length(input, kept.len())?;
    let mut at: usize = 0;
    while at < length {
        let first = at + usize::from(read_byte(input)?);
        let end = first + usize::from(read_byte(input)?);
        if end <= at || length < end {
            return Ok(&mut []);
        }
        input.read_exact(&mut kept[first..end])?;
        at = end;
    }
    let copy = &mut room[..length];
    copy.copy_from_slice(&kept[..length]);
    Ok(copy)
}

fn perform(rt: &impl Print, letter: u8, arguments: Arguments) -> io::Result<()> {
    let Arguments {
        first,
        second,
        name,
        disc,
        area,
        out,
    } = arguments;
    let answer = match Operation::from(letter) {
        Operation::Format => format(disc, area),
        Operation::Boot => boot(area),
        Operation::Erase => erase(disc, area, name),
        Operation::Run => run(disc, area, name),
        Operation::Suspend => suspend(disc, area, first),
        Operation::Resume => resume(disc, area, first),
        Operation::Kill => kill(disc, area, first),
        Operation::Share => share(disc, area, first, second),
        Operation::List => list(disc, area, out),
        Operation::Turn => turn(disc, area, first, second, out),
        Operation::Round => round(disc, area, second, out),
    };
    print_line(rt, letter, number(answer), &[disc, area, out])
}

fn main(rt: HostRuntime) -> io::Result<()> {
    let file = File::open(&rt, "vectors")?;
    let mut kept = Kept {
        disc: [0; LONGEST],
        area: [0; LONGEST],
        out: [0; LONGEST],
    };
    let mut room = Room {
        name: [0; LONGEST],
        disc: [0; LONGEST],
        area: [0; LONGEST],
        out: [0; LONGEST],
    };
    run_all(&mut BufReader::new(rt.alloc(), file)?, |input, letter| {
        perform(&rt, letter, Arguments::read(input, &mut kept, &mut room)?)
    })
}

// A program stored on a formatted disc and run by rounds, with what it prints and how it ends.
use disc::layout::SHORT_DISC;
use machine::limits::{AREA_LENGTH, MAX_SHARE, RECORDS_AT};
use running::board::{Board, MOST_ROUNDS};
use std::io;

// Milliseconds from one round to the next.
const STEP: u32 = 100;

// The ID of the first process.
const FIRST_ID: u32 = 1;

// Where the record of slot 0 has its SP and its stack.
const SP_AT: usize = RECORDS_AT + 30;

const STACK_AT: usize = RECORDS_AT + 32;

// No program has more bytes.
const LONGEST: usize = 64;

// How many turns a program has in a round. Document 02, Q-9: as many as there can be, by a share.
#[derive(Clone, Copy, PartialEq, Eq)]
pub enum Turns {
    One,
    Most,
    // And beside it, in the next slot, the same program has one.
    MostBesideOne,
}

// A program with its title, a row of the guide to a row, and so many rounds at most.
#[derive(Clone, Copy)]
pub struct Show<'a> {
    pub title: &'a str,
    pub rows: &'a [&'a [u8]],
    pub turns: Turns,
    pub most: u16,
}

impl<'a> Show<'a> {
    // A program that runs to its end, with a turn a round.
    pub fn to_end(title: &'a str, rows: &'a [&'a [u8]]) -> Self {
        Show {
            title,
            rows,
            turns: Turns::One,
            most: MOST_ROUNDS,
        }
    }
}

// The rows one behind the other, in the room that is lent. A row for which there is none is left out.
fn lay<'a>(rows: &[&[u8]], room: &'a mut [u8; LONGEST]) -> &'a [u8] {
    let mut len = 0;
    for row in rows {
        if let Some(place) = room[len..].get_mut(..row.len()) {
            place.copy_from_slice(row);
            len += row.len();
        }
    }
    &room[..len]
}

// The operations up to the first round.
fn start(show: &Show, code: &[u8], disc: &mut [u8], area: &mut [u8]) {
    export::arduinos_format(disc, area);
    export::arduinos_store(disc, b"guide", code);
    export::arduinos_run(disc, area, b"guide");
    if show.turns != Turns::One {
        export::arduinos_share(disc, area, FIRST_ID, u32::from(MAX_SHARE));
    }
    if show.turns == Turns::MostBesideOne {
        export::arduinos_run(disc, area, b"guide");
    }
}

// Runs a program, with what the caller asks for after each round.
pub fn run<F: FnMut(&Board) -> io::Result<()>>(
    rt: &impl Print,
    show: &Show,
    after: F,
) -> io::Result<()>
    requires { F.IsAlwaysCallable after }
{
    println!(rt; "{}", show.title)?;
    let mut room = [0; LONGEST];
    let mut disc = [0; SHORT_DISC];
    let mut area = [0; AREA_LENGTH];
    start(show, lay(show.rows, &mut room), &mut disc, &mut area);
    let mut board = Board {
        disc: &mut disc,
        area,
    };
    let rounds = board.rounds(rt, STEP, show.most, after)?;
    board.print_end(rt, rounds)
}

// The stack of slot 0, its bottom first.
pub fn print_stack(rt: &impl Print, board: &Board) -> io::Result<()> {
    let sp = usize::from(board.area[SP_AT]);
    print!(rt; "stack")?;
    for byte in &board.area[STACK_AT..][..sp] {
        print!(rt; " {byte}")?;
    }
    println!(rt;)
}

// Document 01's program bench: its program down stored, listed, run and gone, on a disc of either length.
use crate::board::{Board, MOST_ROUNDS, print_output};
use machine::limits::AREA_LENGTH;
use std::io;

// Document 01: "does rounds until nothing runs (29)".
const ROUNDS: u16 = 29;

// Document 01's program down.
pub const DOWN: [u8; 20] = [
    2, // INT 0 3
    0, 3, 5, // SET n
    110, 6, // GET n
    110, 63, // WHILE 2 8
    2, 8, 6, // GET n
    110, 52, // PRINTLN
    6, // GET n
    110, 8, // DECREMENT
    5, // SET n
    110, 64, // ENDWHILE
    67, // STOP
];

// The disc may hold any bytes before. Another number of rounds gets a line of its own, which the file stdout does not
// have.
pub fn bench(rt: &impl Print, disc: &mut [u8]) -> io::Result<()> {
    let mut area = [255; AREA_LENGTH];
    export::arduinos_format(disc, &mut area);
    export::arduinos_store(disc, b"down", &DOWN);
    print_output(rt, |out| export::arduinos_files(disc, out))?;
    export::arduinos_run(disc, &mut area, b"down");
    print_output(rt, |out| export::arduinos_list(disc, &area, out))?;
    let mut board = Board { disc, area };
    let rounds = board.rounds(rt, 1, MOST_ROUNDS, |_| Ok(()))?;
    if rounds != ROUNDS {
        println!(rt; "rounds: {rounds}")?;
    }
    rt.println(export::arduinos_free_space(board.disc))
}

// A run to the end of all processes, and the line about it.
use running::board::{Board, MOST_ROUNDS};
use std::io;

// What the processes print, then how many rounds it took and how each ended.
pub fn run(rt: &impl Print, label: &str, board: &mut Board) -> io::Result<()> {
    let rounds = board.rounds(rt, 1, MOST_ROUNDS, |_| Ok(()))?;
    print!(rt; "{label}: ")?;
    board.print_end(rt, rounds)
}

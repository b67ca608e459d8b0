// Programs that set 25 variables and then one more.
use crate::runs::run;
use machine::limits::AREA_LENGTH;
use running::board::Board;
use running::instructions::{CHAR, SET, STOP};
use std::io;

// The table of variables is full with so many.
const FULL: u8 = 25;

// A CHAR and its SET.
const PAIR: usize = 4;

// Twenty-six SETs with their CHARs, and a STOP.
const CODE_LENGTH: usize = 105;

// A program that sets the variables 0 to 24, then the last, and stops.
fn setting(last: u8) -> [u8; CODE_LENGTH] {
    let mut code = [STOP; CODE_LENGTH];
    let (pairs, _) = code.as_chunks_mut::<PAIR>();
    for (pair, name) in pairs.iter_mut().zip((0..FULL).chain([last])) {
        *pair = [CHAR, name, SET, name];
    }
    code
}

// Document 01: "a 26th variable gives fault 10, setting one of 25 again does not." The last SET is the 52nd
// instruction, the STOP the 53rd.
pub fn cases(rt: &impl Print, disc: &mut [u8]) -> io::Result<()> {
    for (label, last) in [
        ("a program that sets 26 variables", FULL),
        ("a program that sets one of its 25 variables again", 7),
    ] {
        let code = setting(last);
        let mut area = [0; AREA_LENGTH];
        export::arduinos_format(disc, &mut area);
        export::arduinos_store(disc, b"sets", &code);
        export::arduinos_run(disc, &mut area, b"sets");
        run(rt, label, &mut Board { disc, area })?;
    }
    Ok(())
}

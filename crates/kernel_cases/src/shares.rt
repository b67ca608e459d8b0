// Document 01's program down with a share of eight turns a round, and beside it one without.
use crate::runs::run;
use machine::limits::{AREA_LENGTH, MAX_SHARE};
use running::bench::DOWN;
use running::board::Board;
use std::io;

// The ID of the first process.
const FIRST_ID: u32 = 1;

// Document 02, Q-9: "that many turns in a row". Alone its 29 turns are three rounds of eight and one of five; one
// without a share takes its 29 rounds all the same.
pub fn cases(rt: &impl Print, disc: &mut [u8]) -> io::Result<()> {
    for (label, beside) in [
        ("down with a share of 8", false),
        ("down with a share of 8, and down without", true),
    ] {
        let mut area = [0; AREA_LENGTH];
        export::arduinos_format(disc, &mut area);
        export::arduinos_store(disc, b"down", &DOWN);
        export::arduinos_run(disc, &mut area, b"down");
        export::arduinos_share(disc, &mut area, FIRST_ID, u32::from(MAX_SHARE));
        if beside {
            export::arduinos_run(disc, &mut area, b"down");
        }
        run(rt, label, &mut Board { disc, area })?;
    }
    Ok(())
}

// Runs the example programs of the guide's appendix A, one for document 02's load lamps, and two of the former with
// document 02's shares, through the functions that the firmware calls. The gate compares what comes out with the file
// stdout, which was worked out by hand before the first run, from these places:
//   A.1    the stacks that the guide draws, bottom first. Neither example has a STOP, so that the code ends: fault 2
//   A.2    "print de letter a", 263, 123.45, "test"; no STOP either
//   A.3.2  "False": 3 is not 5
//   A.3.3  1, 2, 3 and so on without end: three rounds before the loop and six for each number, so that 33 print five
//   A.3.4  "wordt 5x uitgevoerd": 1 to 5. ENDWHILE goes 18 bytes back (9.4, by document 01)
//   A.4    nothing: PINMODE, the seventh instruction, is not built (document 01), fault 1. It runs again with prints
//          in the place of its pins: the lamp's state, and the time, for each switch. Five rounds after that time
//          MILLIS is read again, DELAYUNTIL lets go 500 ms later, which are five rounds, and after five more the next
//          time is read
//   A.5    what was written is read: "text" with its newline, a, 98 * 256 + 99, and 0.1 with document 01's two decimals
//   A.6    as printed the file world begins with the letter w, byte 119, which is no instruction: the child ends by
//          fault 1. With CHAR STRING WRITE before the letters the output is the guide's, but for the comma of "hello,"
//          that the guide's output lacks
//   Q-3    "Load lamps need CONSTRAIN, MAP and POW": 700 of 0 to 1023 is 700 * 255 / 1023 = 174.4.. of 0 to 255, "cut
//          toward zero" 174; that kept between 50 and 150 is 150, MAX of 174 and 50 being 174 and MIN of it and 150
//          being 150; 1.5 POW 2 is 1 * 1.5 * 1.5. Nine instructions to the first PRINTLN, five, four, and STOP
//   Q-9    "that many turns in a row while it stays running": of A.3.4's 57 turns seven rounds take eight each, and the
//          eighth takes STOP. Beside it the same program without a share has had eight turns then, and has printed
//          nothing; it ends in round 57, as alone. A.4 with its prints takes eight turns up to its first time, 0. In
//          round 2 MILLIS is 100; DELAYUNTIL stays for the rest of that share and for four whole ones, and lets go in
//          round 7, which has the next time in the same share, 600. In round 8 MILLIS is 700, and round 13 has 1200
// Without a share a process has one instruction in a round, so that the rounds are the instructions of slot 0, and what
// it stays at: two rounds at DELAYUNTIL; none or two at WAITUNTILDONE, by whether the child ends in FORK's round or two
// later.
#![tactic(auto)]

mod programs;
mod show;

use crate::show::{Show, Turns};
use std::io;

fn main(rt: HostRuntime) -> io::Result<()> {
    for (title, rows) in [
        ("A.1, two numbers", programs::NUMBERS),
        ("A.1, a string", programs::HELLO),
    ] {
        show::run(
            &rt,
            &Show::to_end(title, rows),
            |board| show::print_stack(&rt, board),
        )?;
    }
    let forked = programs::forked();
    let forked_string = programs::forked_string();
    let shows = [
        Show::to_end("A.2", programs::PRINTED),
        Show::to_end("A.3.2", programs::BRANCH),
        Show {
            most: 33,
            ..Show::to_end("A.3.3, 33 rounds of it", programs::ENDLESS)
        },
        Show::to_end("A.3.4", programs::COUNTED),
        Show::to_end("A.4", programs::BLINK),
        Show {
            most: 38,
            ..Show::to_end(
                "A.4 with prints for pins, 38 rounds of it",
                programs::BLINK_PRINTED,
            )
        },
        Show::to_end("A.5", programs::WRITTEN),
        Show::to_end("A.6 as printed", &forked),
        Show::to_end("A.6 with its missing STRING", &forked_string),
        Show::to_end("Q-3, load lamps", programs::LOAD_LAMPS),
        Show {
            turns: Turns::MostBesideOne,
            most: 8,
            ..Show::to_end(
                "Q-9, A.3.4 with a share of 8 beside A.3.4, 8 rounds of it",
                programs::COUNTED,
            )
        },
        Show {
            turns: Turns::MostBesideOne,
            ..Show::to_end(
                "Q-9, A.3.4 with a share of 8 beside A.3.4",
                programs::COUNTED,
            )
        },
        Show {
            turns: Turns::Most,
            most: 13,
            ..Show::to_end(
                "Q-9, A.4 with prints for pins and a share of 8, 13 rounds of it",
                programs::BLINK_PRINTED,
            )
        },
    ];
    for show in &shows {
        show::run(&rt, show, |_| Ok(()))?;
    }
    Ok(())
}

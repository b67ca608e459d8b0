// A disc with the work area beside it, as the firmware holds them.
ghost use Rattle.std.specs.Prelude.{◌≤◌, IfOk};

use buffer::bytes::word_at;
use machine::limits::{AREA_LENGTH, RECORD_SIZE, RECORDS_AT, ROUND_ROOM};
use std::io;

// A proved loop ends; one over rounds at the latest after so many.
pub const MOST_ROUNDS: u16 = 1000;

// Where a process record has ID, state and fault. Document 01: "0 ended".
const ID_AT: usize = 12;

const STATE_AT: usize = 14;

const FAULT_AT: usize = 15;

const ENDED: u8 = 0;

#[derive(Drop)]
pub struct Board<'a> {
    pub disc: &'a mut [u8],
    pub area: [u8; AREA_LENGTH],
}

impl Board<'_> {
    // Whether a process lives: then list has a line.
    pub fn lives(&self) -> bool {
        let mut out = [0u8; ROUND_ROOM];
        0 < export::arduinos_list(self.disc, &self.area, &mut out)
    }

    // A round, with what it prints.
    pub fn round(&mut self, rt: &impl Print, clock: u32) -> io::Result<()> {
        print_output(
            rt,
            |out| export::arduinos_round(self.disc, &mut self.area, clock, out),
        )
    }

    // Rounds until no process lives, and so many at most. The clock is 0 in the first and goes on by that step; after
    // each round comes what the caller asks for. Answers how many rounds they were.
    pub fn rounds<F: FnMut(&Board) -> io::Result<()>>(
        &mut self,
        rt: &impl Print,
        step: u32,
        most: u16,
        mut after: F,
    ) -> io::Result<u16>
        requires { F.IsAlwaysCallable after }
        ensures { IfOk result (λ count. count ≤ most) }
    {
        let mut clock: u32 = 0;
        for count in 0..most {
            if !self.lives() {
                return Ok(count);
            }
            self.round(rt, clock)?;
            after(self)?;
            clock = clock.wrapping_add(step);
        }
        Ok(most)
    }

    // A line for the end of a run: how many rounds it took, and each slot that has had a process.
    pub fn print_end(&self, rt: &impl Print, rounds: u16) -> io::Result<()> {
        print!(rt; "{rounds} rounds")?;
        let (records, _) = self.area[RECORDS_AT..].as_chunks::<RECORD_SIZE>();
        for (slot, record) in records.iter().enumerate() {
            print_slot(rt, slot, record)?;
        }
        println!(rt;)
    }
}

// What an operation writes into the output that it is lent, as many bytes as it returns; of a refused one a line with
// the number.
pub fn print_output<F: FnOnce(&mut [u8]) -> i32>(rt: &impl Print, operation: F) -> io::Result<()>
    requires { F.IsAlwaysCallable operation }
{
    let mut out = [0u8; ROUND_ROOM];
    let returned = operation(&mut out);
    let Ok(len) = usize::try_from(returned) else {
        return println!(rt; "refused: {returned}");
    };
    match out.get(..len) {
        Some(written) => rt.write_all(written),
        None => println!(rt; "more than the output has: {returned}"),
    }
}

// Whether the process of a slot lives, and if not, by which fault it ended. Nothing for a slot that has had none.
fn print_slot(rt: &impl Print, slot: usize, record: &[u8; RECORD_SIZE]) -> io::Result<()> {
    if word_at(record, ID_AT) == 0 {
        return Ok(());
    }
    if record[STATE_AT] == ENDED {
        print!(rt; ", slot {slot} ended, fault {}", record[FAULT_AT])
    } else {
        print!(rt; ", slot {slot} lives")
    }
}

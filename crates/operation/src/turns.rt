// Turn and round.
ghost use Rattle.std.specs.Prelude.{◌≡◌};
ghost use Rattle.machine.specs.Answer.{answer, round, turn};
ghost use Rattle.operation.specs.Answers.{answered, lent};

use machine::limits::{ROUND_ROOM, SLOT_COUNT, TURN_ROOM};
use store::{Answer, Refusal};
use turn::round::{is_running, take_turns};
use turn::take::turn_slot;
use validation::check;

// Document 01: "Turn, one instruction of one slot, with a 32-bit clock and at least 32 output bytes: 16 slot above 9 or
// not running."
pub fn turn(disc: &mut [u8], area: &mut [u8], slot: u32, clock: u32, out: &mut [u8]) -> Answer
    ensures { answered result disc.new area.new out.new
        ≡ answer (turn slot clock) (lent disc.old area.old out.old) }
{
    check(disc, area)?;
    if out.len() < TURN_ROOM {
        return Err(Refusal::ShortOutput);
    }
    let at = slot as usize;
    if SLOT_COUNT <= at || !is_running(area, at) {
        return Err(Refusal::NotRunning);
    }
    Ok(turn_slot(disc, area, at, clock, out) as u16)
}

// Document 02, Q-9, Round: "needs 2,560 output bytes". It tests goodness once, and returns the number of all bytes
// printed.
pub fn round(disc: &mut [u8], area: &mut [u8], clock: u32, out: &mut [u8]) -> Answer
    ensures { answered result disc.new area.new out.new
        ≡ answer (round clock) (lent disc.old area.old out.old) }
{
    check(disc, area)?;
    if out.len() < ROUND_ROOM {
        return Err(Refusal::ShortOutput);
    }
    Ok(take_turns(disc, area, clock, out) as u16)
}

// Instructions that look at the clock.
ghost use Rattle.machine.specs.Exec.{delays, push_clock};
ghost use Rattle.stack.specs.Frames.{Performs};

use machine::fault::Fault;
use number::clock::is_ahead;
use operator::instruction::Types;
use stack::frame::Frame;
use stack::tops::top_number;
use stack::{Action, Step};

// Document 02, Q-4: "DELAYUNTIL now stays while x minus the clock, modulo 65,536, is 1 to 32,767. CHAR is widened
// first. FLOAT becomes fault 6."
pub fn delay(frame: &Frame<'_>, clock: u32) -> Result<Step, Fault>
    ensures { Performs frame.now (λ code stack loopstart at. delays code stack loopstart at clock) result }
{
    let x = top_number(frame.process.stack, Types::CharOrInt)?;
    if is_ahead(x.number, clock) {
        return Ok(frame.process.act(Action::Push, frame.at));
    }
    frame.process.go(x.below, frame.at + 1)
}

// MILLIS: an INT, high byte first.
pub fn push_clock(frame: &Frame<'_>, clock: u32) -> Result<Step, Fault>
    ensures { Performs frame.now (λ code stack loopstart at. push_clock code stack loopstart at clock) result }
{
    let bytes = [(clock % 65536 / 256) as u8, (clock % 256) as u8];
    frame
        .process
        .push_item(frame.process.stack.len(), 2, &bytes, frame.at + 1)
}

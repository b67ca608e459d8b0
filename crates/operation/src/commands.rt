// Suspend, resume, kill and share: the operations on a process by its ID.
ghost use Rattle.std.specs.Prelude.{◌≡◌, List, ℕ};
ghost use Rattle.machine.specs.Answer.{answer, command, command_answer, on_good, share};
ghost use Rattle.machine.specs.Area.{kernel_of};
ghost use Rattle.machine.specs.Operations.{kill, resume, suspend};
ghost use Rattle.operation.specs.Answers.{answered, lent};
ghost use Rattle.operation.specs.Commands.{live_slot, turned_to};

use area::processes::slot_of;
use area::records::{PAUSED, RUNNING, process_at};
use machine::fault::NO_FAULT;
use machine::limits::MAX_SHARE;
use process::advance::put_back;
use process::ending::finish;
use store::{Answer, Refusal};
use validation::check;

// Document 01: "14 no live process of that ID", behind the tests of both buffers.
fn live_slot(disc: &[u8], area: &[u8], id: u32) -> Result<usize, Refusal>
    ensures { result ≡ live_slot disc.now area.now id }
{
    check(disc, area)?;
    slot_of(area, id).ok_or(Refusal::NoProcess)
}

// Document 01: "15 already in that state." The state is the record's byte, which is compared and written as it is.
fn change_state(disc: &[u8], area: &mut [u8], id: u32, state: u8) -> Answer
    ensures { (out : List ℕ) → answered result disc.now area.new out
        ≡ on_good (lent disc.now area.old out)
        (command_answer (turned_to state id (kernel_of area.old))
        (lent disc.now area.old out)) }
{
    let slot = live_slot(disc, area, id)?;
    let mut p = process_at(area, slot);
    if p.state == state {
        return Err(Refusal::SameState);
    }
    p.state = state;
    put_back(area, slot, p);
    Ok(0)
}

pub fn suspend(disc: &[u8], area: &mut [u8], id: u32) -> Answer
    ensures { (out : List ℕ) → answered result disc.now area.new out
        ≡ answer (command suspend id) (lent disc.now area.old out) }
{
    change_state(disc, area, id, PAUSED)
}

pub fn resume(disc: &[u8], area: &mut [u8], id: u32) -> Answer
    ensures { (out : List ℕ) → answered result disc.now area.new out
        ≡ answer (command resume id) (lent disc.now area.old out) }
{
    change_state(disc, area, id, RUNNING)
}

// Document 01: "Kill: 14."
pub fn kill(disc: &[u8], area: &mut [u8], id: u32) -> Answer
    ensures { (out : List ℕ) → answered result disc.now area.new out
        ≡ answer (command kill id) (lent disc.now area.old out) }
{
    let slot = live_slot(disc, area, id)?;
    finish(area, slot, NO_FAULT);
    Ok(0)
}

// How many turns a round gives the process; it is kept until the process ends. Document 02, Q-9: "22 a share outside 1
// to 8, after 14."
pub fn share(disc: &[u8], area: &mut [u8], id: u32, turns: u32) -> Answer
    ensures { (out : List ℕ) → answered result disc.now area.new out
        ≡ answer (share id turns) (lent disc.now area.old out) }
{
    let slot = live_slot(disc, area, id)?;
    if turns < 1 || (MAX_SHARE as u32) < turns {
        return Err(Refusal::BadShare);
    }
    let mut p = process_at(area, slot);
    p.share = turns as u8;
    put_back(area, slot, p);
    Ok(0)
}

// WAITUNTILDONE: stays, or goes on.
ghost use Rattle.std.specs.Prelude.{◌≡◌, List, ℕ, length};
ghost use Rattle.buffer.specs.Lists.{any};
ghost use Rattle.machine.specs.Area.{kernel_of};
ghost use Rattle.machine.specs.Beyond.{answered};
ghost use Rattle.machine.specs.Effect.{awaits};
ghost use Rattle.machine.specs.Limits.{area_length};
ghost use Rattle.process.specs.Stepping.{Stepping, left, stack_of};
ghost use Rattle.request.specs.Answers.{after, is_awaited_by};
ghost use Rattle.machine.specs.State.{local_of};
ghost use Rattle.stack.specs.Steps.{keeping};

use area::records::process_at;
use machine::Process;
use machine::limits::SLOT_COUNT;
use number::Number;
use number::compare::equals_whole;
use process::advance::go_on;
use stack::Step;

// Whether that is the ID of a live process.
fn is_awaited_in(p: Process, id: Number) -> bool
    ensures { result ≡ is_awaited_by id p }
{
    ((p.state == area::records::RUNNING) | (p.state == area::records::PAUSED))
        & equals_whole(id, p.id as i32)
}

fn is_awaited(area: &[u8], id: Number) -> bool
    requires { length area.now ≡ area_length }
    ensures { result ≡ any (is_awaited_by id) (kernel_of area.now).processes }
{
    (0..SLOT_COUNT).any(|slot| is_awaited_in(process_at(area, slot), id))
}

// Document 01: "WAITUNTILDONE stays while a live process has that ID."
pub fn wait(area: &mut [u8], slot: usize, p: Process, d: Step, id: Number)
    requires { Stepping area.old slot p d }
    ensures { (disc : List ℕ) → left disc area.new ≡ after disc area.old slot
        (answered (kernel_of area.old) slot disc (awaits id (local_of p) (keeping (stack_of p) d))) }
{
    let file = p.file;
    if is_awaited(area, id) {
        go_on(area, slot, p.sp, p.pc, p.loopstart, b"", b"", file);
        return;
    }
    go_on(area, slot, d.kept, d.pc, d.loopstart, b"", b"", file);
}

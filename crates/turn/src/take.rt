// One turn: the process is copied out and takes its step; of its record only what the step changed is written.
ghost use Rattle.std.specs.Prelude.{◌≡◌, ◌<◌, ◌≤◌, true, length};
ghost use Rattle.buffer.specs.Buffer.{overwrite};
ghost use Rattle.machine.specs.Area.{kernel_of};
ghost use Rattle.machine.specs.Limits.{slot_count, stack_size, turn_room};
ghost use Rattle.machine.specs.Refusals.{Passes};
ghost use Rattle.machine.specs.State.{is_running, process_at};
ghost use Rattle.machine.specs.Turn.{carried_out, turned};
ghost use Rattle.process.specs.Stepping.{left, left_by, stack_of};
ghost use Rattle.stack.specs.Steps.{effect_of};
ghost use Rattle.turn.specs.Turns.{Carries, printed_by, turn_left, turn_left_by};

use area::processes::processes_of;
use machine::Process;
use machine::fault::NO_FAULT;
use process::advance::go_on;
use process::ending::{fail, finish};
use process::fetch::next_step;
use process::setting::set_variable;
use request::file::{read_number, read_string, write_file};
use request::fork::fork;
use request::open::open_file;
use request::wait::wait;
use stack::{Action, Step};

// What a step does beyond printing: its process goes on, sets a variable, ends, or reaches beyond itself.
fn carry_out(disc: &mut [u8], area: &mut [u8], slot: usize, p: Process, d: Step)
    requires { Carries disc.old area.old slot p d }
    ensures { left disc.new area.new ≡ left_by (carried_out (kernel_of area.old) slot
        disc.old (effect_of (stack_of p) d)) }
{
    let file = p.file;
    let action = d.action;
    match action {
        Action::Push => {
            let bytes = d.bytes;
            let len = d.len as usize;
            let pushed = &bytes[..len];
            go_on(area, slot, d.kept, d.pc, d.loopstart, pushed, b"", file);
        }
        Action::Print => go_on(area, slot, d.kept, d.pc, d.loopstart, b"", b"", file),
        Action::Assign(name, kind) => set_variable(area, slot, p, d, name, kind),
        Action::Stop => finish(area, slot, NO_FAULT),
        Action::Open(size) => open_file(disc, area, slot, p, d, size),
        Action::Close => go_on(area, slot, d.kept, d.pc, d.loopstart, b"", b"", file),
        Action::Write => write_file(disc, area, slot, p, d),
        Action::Read(kind) => read_number(disc, area, slot, p, d, kind),
        Action::ReadString => read_string(disc, area, slot, p, d),
        Action::Fork => fork(disc, area, slot, p, d),
        Action::Await(id) => wait(area, slot, p, d, id),
    }
}

// What the step prints, and how many bytes that is.
fn print(d: Step, out: &mut [u8]) -> usize
    requires { (d.len ≤ stack_size) × (turn_room ≤ length out.old) }
    ensures { (result ≡ length (printed_by d)) × (out.new ≡ overwrite out.old 0 (printed_by d)) }
{
    let action = d.action;
    if let Action::Print = action {
        let bytes = d.bytes;
        let len = d.len as usize;
        buffer::bytes::overwrite_at(out, 0, &bytes[..len]);
        return len;
    }
    0
}

// Document 01: "Turn, one instruction of one slot [..] Returns the bytes printed; the rest of the output is untouched."
// The process is the one of that slot, copied out.
pub fn take_turn(
    disc: &mut [u8],
    area: &mut [u8],
    slot: usize,
    p: Process,
    clock: u32,
    out: &mut [u8],
) -> usize
    requires { Passes disc.old area.old × (slot < slot_count) × (turn_room ≤ length out.old)
        × (p ≡ process_at (kernel_of area.old) slot) × (is_running p ≡ true) }
    ensures { turn_left result disc.new area.new out.new
        ≡ turn_left_by (turned (kernel_of area.old) slot clock disc.old) out.old }
{
    match next_step(disc, area, p, clock) {
        Ok(d) => {
            carry_out(disc, area, slot, p, d);
            print(d, out)
        }
        Err(fault) => {
            fail(area, slot, fault);
            0
        }
    }
}

// One of the ten processes.
pub fn turn_slot(disc: &mut [u8], area: &mut [u8], slot: usize, clock: u32, out: &mut [u8]) -> usize
    requires { Passes disc.old area.old × (slot < slot_count) × (turn_room ≤ length out.old)
        × (is_running (process_at (kernel_of area.old) slot) ≡ true) }
    ensures { turn_left result disc.new area.new out.new
        ≡ turn_left_by (turned (kernel_of area.old) slot clock disc.old) out.old }
{
    let processes = processes_of(area);
    let p = processes[slot];
    take_turn(disc, area, slot, p, clock, out)
}

// The step that a process takes next.
ghost use Rattle.std.specs.Prelude.{◌≡◌, ◌+◌, ◌≤◌, length};
ghost use Rattle.instruction.specs.Readable.{Readable};
ghost use Rattle.machine.specs.Area.{kernel_of};
ghost use Rattle.machine.specs.Exec.{exec};
ghost use Rattle.machine.specs.Limits.{area_length, stack_size};
ghost use Rattle.machine.specs.State.{local_of};
ghost use Rattle.machine.specs.Turn.{program_of};
ghost use Rattle.process.specs.Stepping.{stack_of};
ghost use Rattle.stack.specs.Steps.{Means};
ghost use Rattle.variable.specs.Table.{owned};

use machine::Process;
use machine::fault::Fault;
use stack::Step;

// Document 01: "An instruction reads its argument bytes from the program's own part of the disc."; "PC and loop are
// offsets from the code start."
pub fn next_step(disc: &[u8], area: &[u8], p: Process, clock: u32) -> Result<Step, Fault>
    requires { (p.code.start + p.code.len ≤ length disc.now) × (p.sp ≤ stack_size)
        × (length area.now ≡ area_length) × Readable (kernel_of area.now).variables }
    ensures { Means (stack_of p) result (exec (program_of disc.now p) clock (local_of p)
        (owned (kernel_of area.now).variables p.id)) }
{
    let start = p.code.start as usize;
    let end = start + p.code.len as usize;
    let stack = p.stack;
    let sp = p.sp as usize;
    instruction::execute::execute(
        &disc[start..end],
        &stack[..sp],
        p.pc as usize,
        p.loopstart,
        clock,
        area,
        p.id,
    )
}

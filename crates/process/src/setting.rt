// SET: the variable, and its process on behind the instruction.
ghost use Rattle.std.specs.Prelude.{List, ◌≡◌, ℕ, ◌≤◌};
ghost use Rattle.machine.specs.Area.{kernel_of};
ghost use Rattle.machine.specs.Effect.{assigns};
ghost use Rattle.machine.specs.Turn.{carried_out};
ghost use Rattle.process.specs.Stepping.{Stepping, left, left_by, stack_of};
ghost use Rattle.stack.specs.Steps.{about, keeping};

use crate::advance::go_on;
use crate::ending::finish;
use area::variables::assign_in;
use machine::Process;
use stack::Step;
use variable::assign::placing_fault;

// Document 01: "SET first frees the old variable"; fault 10: "no variable entry or run". Its place is that of document
// 02, Q-10. A SET that finds no place ends its process.
pub fn set_variable(area: &mut [u8], slot: usize, p: Process, d: Step, name: u8, kind: u8)
    requires { Stepping area.old slot p d × (1 ≤ d.len) }
    ensures { (disc : List ℕ) → left disc area.new
        ≡ left_by (carried_out (kernel_of area.old) slot disc
        (assigns name kind (about d) (keeping (stack_of p) d))) }
{
    let bytes = d.bytes;
    let n = d.len as usize;
    let file = p.file;
    let placing = assign_in(area, name, kind, p.id, &bytes[..n]);
    match placing {
        Ok(_) => go_on(area, slot, d.kept, d.pc, d.loopstart, b"", b"", file),
        Err(_) => finish(area, slot, placing_fault(placing)),
    }
}

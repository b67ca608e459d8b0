// FORK: a child process, its ID on the stack of the one that forks.
ghost use Rattle.std.specs.Prelude.{◌≡◌, List, ℕ, ◌+◌, ◌≤◌};
ghost use Rattle.machine.specs.Area.{kernel_of};
ghost use Rattle.machine.specs.Beyond.{answered, forked};
ghost use Rattle.machine.specs.Effect.{forks};
ghost use Rattle.machine.specs.Limits.{id_limit, stack_size};
ghost use Rattle.machine.specs.Start.{refuses, starts};
ghost use Rattle.process.specs.Stepping.{Stepping, left, own_at, stack_of};
ghost use Rattle.request.specs.Answers.{after};
ghost use Rattle.request.specs.Starts.{Startable};
ghost use Rattle.stack.specs.Steps.{about, keeping};
ghost use Rattle.disc.specs.Directory.{Readable, entry_at};

use crate::Launch;
use crate::start::{find_start, start};
use machine::{OpenFile, Process};
use process::advance::go_on;
use stack::Step;

const INT_KIND: u8 = 2;

// Document 01: "FORK pushes INT 0 where run would refuse."
fn push_zero(area: &mut [u8], slot: usize, file: OpenFile, d: Step)
    requires { Stepping area.old slot (own_at area.old slot) d × (file ≡ (own_at area.old slot).file)
        × (d.kept + 3 ≤ stack_size) }
    ensures { (disc : List ℕ) (n : ℕ) → left disc area.new ≡ after disc area.old slot
        (forked (kernel_of area.old) slot disc (refuses n)
        (keeping (stack_of (own_at area.old slot)) d)) }
{
    let id = [0u8, 0u8];
    let tail = [INT_KIND];
    go_on(area, slot, d.kept, d.pc, d.loopstart, &id, &tail, file);
}

// The child in its slot, next ID on the stack.
fn push_child(disc: &[u8], area: &mut [u8], slot: usize, file: OpenFile, d: Step, child: Launch)
    requires { Stepping area.old slot (own_at area.old slot) d × (file ≡ (own_at area.old slot).file)
        × (d.kept + 3 ≤ stack_size) × Readable disc.now
        × Startable disc.now area.old child.slot child.place × ((kernel_of area.old).next ≤ id_limit) }
    ensures { left disc.now area.new ≡ after disc.now area.old slot
        (forked (kernel_of area.old) slot disc.now (starts child.slot (entry_at disc.now child.place))
        (keeping (stack_of (own_at area.old slot)) d)) }
{
    let next = area::records::next_id(area);
    let id = [buffer::bytes::high(next), buffer::bytes::low(next)];
    let tail = [INT_KIND];
    start(
        area,
        child.slot,
        disc::directory::entry_at(disc, child.place),
    );
    go_on(area, slot, d.kept, d.pc, d.loopstart, &id, &tail, file);
}

pub fn fork(disc: &[u8], area: &mut [u8], slot: usize, p: Process, d: Step)
    requires { Stepping area.old slot p d × Readable disc.now × (d.kept + 3 ≤ stack_size)
        × ((kernel_of area.old).next ≤ id_limit) }
    ensures { left disc.now area.new ≡ after disc.now area.old slot
        (answered (kernel_of area.old) slot disc.now (forks (about d) (keeping (stack_of p) d))) }
{
    let file = p.file;
    let bytes = d.bytes;
    let len = d.len as usize;
    match find_start(disc, area, &bytes[..len]) {
        Ok(child) => push_child(disc, area, slot, file, d, child),
        Err(_) => push_zero(area, slot, file, d),
    }
}

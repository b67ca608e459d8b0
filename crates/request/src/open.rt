// OPEN: a file that is there, or a new one.
ghost use Rattle.std.specs.Prelude.{◌≡◌, List, ℕ};
ghost use Rattle.machine.specs.Area.{kernel_of};
ghost use Rattle.machine.specs.Beyond.{answered, continues, created, created_at, new_file_size, opened};
ghost use Rattle.machine.specs.Effect.{opens};
ghost use Rattle.process.specs.Stepping.{Stepping, left, stack_of};
ghost use Rattle.request.specs.Answers.{after, run_from};
ghost use Rattle.stack.specs.Steps.{about, keeping};
ghost use Rattle.disc.specs.Directory.{Readable};
ghost use Rattle.store.specs.File.{admission};

use machine::fault::Fault;
use machine::{OpenFile, Process};
use number::Number;
use number::compare::size_within;
use process::advance::go_on;
use process::ending::fail;
use stack::Step;

// The process goes on with the file of these bytes open, at offset 0.
fn open_run(area: &mut [u8], slot: usize, p: Process, d: Step, start: u16, len: u16)
    requires { Stepping area.old slot p d }
    ensures { (disc after' : List ℕ) → left after' area.new ≡ after disc area.old slot
        (continues (kernel_of area.old) slot disc (keeping (stack_of p) d)
        (opened (run_from start len)) after') }
{
    let file = OpenFile {
        start: start,
        len: len,
        offset: 0,
    };
    go_on(area, slot, d.kept, d.pc, d.loopstart, b"", b"", file);
}

// A new file of n bytes. Document 02, Q-8: "OPEN now fills a file it creates with zeros."
fn create_file(disc: &mut [u8], area: &mut [u8], slot: usize, p: Process, d: Step, n: u16)
    requires { Stepping area.old slot p d × Readable disc.old }
    ensures { left disc.new area.new ≡ after disc.old area.old slot
        (created_at (kernel_of area.old) slot disc.old (admission disc.old (about d) n)
        (about d) n (keeping (stack_of p) d)) }
{
    let bytes = d.bytes;
    let len = d.len as usize;
    match store::file::admit(disc, &bytes[..len], n as usize) {
        Ok(start) => {
            store::file::create(disc, &bytes[..len], n as usize, start);
            open_run(area, slot, p, d, start as u16, n);
        }
        Err(_) => fail(area, slot, Fault::FileRefused),
    }
}

// Document 01: "size (cut toward zero; NaN and infinities count as refused sizes) matters only for a new file"
fn open_new(disc: &mut [u8], area: &mut [u8], slot: usize, p: Process, d: Step, size: Number)
    requires { Stepping area.old slot p d × Readable disc.old }
    ensures { left disc.new area.new ≡ after disc.old area.old slot
        (created (kernel_of area.old) slot disc.old (new_file_size disc.old size)
        (about d) (keeping (stack_of p) d)) }
{
    let max = store::file::size_limit(disc);
    match size_within(size, max as u16) {
        Some(n) => create_file(disc, area, slot, p, d, n),
        None => fail(area, slot, Fault::FileRefused),
    }
}

pub fn open_file(disc: &mut [u8], area: &mut [u8], slot: usize, p: Process, d: Step, size: Number)
    requires { Stepping area.old slot p d × Readable disc.old }
    ensures { left disc.new area.new ≡ after disc.old area.old slot
        (answered (kernel_of area.old) slot disc.old
        (opens (about d) size (keeping (stack_of p) d))) }
{
    let bytes = d.bytes;
    let len = d.len as usize;
    match disc::directory::find(disc, &bytes[..len]) {
        Some(i) => {
            let entry = disc::directory::entry_at(disc, i);
            open_run(area, slot, p, d, entry.start, entry.len);
        }
        None => open_new(disc, area, slot, p, d, size),
    }
}

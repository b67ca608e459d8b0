// WRITE and the READs.
ghost use Rattle.std.specs.Prelude.{◌≡◌, ◌++◌, ◌+◌, ◌≤◌, length, take};
ghost use Rattle.machine.specs.Area.{kernel_of};
ghost use Rattle.machine.specs.Beyond.{advanced, answered, file_run, received};
ghost use Rattle.machine.specs.Effect.{reads, reads_string, writes};
ghost use Rattle.process.specs.Stepping.{Stepping, left, own_at, stack_of};
ghost use Rattle.request.specs.Answers.{Ahead, Lies, access_to, after, text_read};
ghost use Rattle.stack.specs.Steps.{about, keeping};
ghost use Rattle.store.specs.File.{read_at};

use machine::fault::Fault;
use machine::limits::STACK_SIZE;
use machine::{OpenFile, Process};
use place::Run;
use process::advance::go_on;
use process::ending::fail;
use stack::{STRING_KIND, Step};

// Whether n bytes can be written or read at the offset. Document 01: "11 no open file; 12 past the file's end"
fn access(file: OpenFile, n: usize) -> Result<(), Fault>
    requires { n ≤ 65536 }
    ensures { result ≡ access_to file n }
{
    if file.len == 0 {
        return Err(Fault::NoOpenFile);
    }
    if file.offset as usize + n <= file.len as usize {
        return Ok(());
    }
    Err(Fault::PastEnd)
}

// The bytes of the file that is open.
fn file_run(file: OpenFile) -> Run
    ensures { result ≡ file_run file }
{
    Run {
        start: file.start,
        len: file.len,
    }
}

// The file with its offset n bytes on.
fn advanced(file: OpenFile, n: usize) -> OpenFile
    requires { file.offset + n ≤ file.len }
    ensures { result ≡ advanced file n }
{
    OpenFile {
        start: file.start,
        len: file.len,
        offset: (file.offset as usize + n) as u16,
    }
}

// Document 01: "WRITE and variable memory keep a value's bytes in stack order, without length and type."
pub fn write_file(disc: &mut [u8], area: &mut [u8], slot: usize, p: Process, d: Step)
    requires { Stepping area.old slot p d × Lies disc.old p.file }
    ensures { left disc.new area.new ≡ after disc.old area.old slot
        (answered (kernel_of area.old) slot disc.old
        (writes (about d) (keeping (stack_of p) d))) }
{
    let file = p.file;
    let n = d.len as usize;
    match access(file, n) {
        Ok(()) => {
            let bytes = d.bytes;
            store::file::write_at(disc, file_run(file), file.offset as usize, &bytes[..n]);
            go_on(
                area,
                slot,
                d.kept,
                d.pc,
                d.loopstart,
                b"",
                b"",
                advanced(file, n),
            );
        }
        Err(fault) => fail(area, slot, fault),
    }
}

// The next n bytes of the file go onto the stack, and then the tail.
fn push_read(
    disc: &[u8],
    area: &mut [u8],
    slot: usize,
    file: OpenFile,
    d: Step,
    n: usize,
    tail: &[u8],
)
    requires { Stepping area.old slot (own_at area.old slot) d × (file ≡ (own_at area.old slot).file)
        × Ahead disc.now file n × (length tail.now ≤ 2) }
    ensures { left disc.now area.new ≡ after disc.now area.old slot
        (received (kernel_of area.old) slot disc.now
        (take d.kept (stack_of (own_at area.old slot))
        ++ read_at disc.now (file_run file) file.offset n ++ tail.now) n
        (keeping (stack_of (own_at area.old slot)) d)) }
{
    if STACK_SIZE < d.kept as usize + n + tail.len() {
        fail(area, slot, Fault::StackFull);
        return;
    }
    let mut bytes = [0u8; STACK_SIZE];
    store::file::read_at(disc, file_run(file), file.offset as usize, &mut bytes[..n]);
    go_on(
        area,
        slot,
        d.kept,
        d.pc,
        d.loopstart,
        &bytes[..n],
        tail,
        advanced(file, n),
    );
}

// READCHAR, READINT and READFLOAT, by the type read.
pub fn read_number(disc: &[u8], area: &mut [u8], slot: usize, p: Process, d: Step, kind: u8)
    requires { Stepping area.old slot p d × Lies disc.now p.file }
    ensures { left disc.now area.new ≡ after disc.now area.old slot
        (answered (kernel_of area.old) slot disc.now (reads kind (keeping (stack_of p) d))) }
{
    let file = p.file;
    let n = kind as usize;
    match access(file, n) {
        Ok(()) => {
            let tail = [kind];
            push_read(disc, area, slot, file, d, n, &tail);
        }
        Err(fault) => fail(area, slot, fault),
    }
}

// A string of n bytes, its zero with them.
fn push_text(disc: &[u8], area: &mut [u8], slot: usize, p: Process, d: Step, n: usize)
    requires { Stepping area.old slot p d × Ahead disc.now p.file n }
    ensures { left disc.now area.new ≡ after disc.now area.old slot
        (received (kernel_of area.old) slot disc.now (text_read disc.now p d n) n
        (keeping (stack_of p) d)) }
{
    if STACK_SIZE < n {
        fail(area, slot, Fault::StackFull);
        return;
    }
    let file = p.file;
    let tail = [n as u8, STRING_KIND];
    push_read(disc, area, slot, file, d, n, &tail);
}

// Document 01: "READSTRING seeks its zero before testing the stack."
pub fn read_string(disc: &[u8], area: &mut [u8], slot: usize, p: Process, d: Step)
    requires { Stepping area.old slot p d × Lies disc.now p.file }
    ensures { left disc.now area.new ≡ after disc.now area.old slot
        (answered (kernel_of area.old) slot disc.now (reads_string (keeping (stack_of p) d))) }
{
    let file = p.file;
    if file.len == 0 {
        fail(area, slot, Fault::NoOpenFile);
        return;
    }
    let n = store::file::text_ahead(disc, file_run(file), file.offset as usize) + 1;
    if (file.len as usize) < file.offset as usize + n {
        fail(area, slot, Fault::PastEnd);
        return;
    }
    push_text(disc, area, slot, p, d, n);
}

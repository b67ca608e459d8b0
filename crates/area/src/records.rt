// One process record in the bytes of the work area, and next ID.
// Document 01: "ten process records of 64 bytes: name 12, ID 2, state 1 [..], fault 1, code start 2, code length 2,
// PC 2, loop 2 [..], file start 2, file length 2 [..], file offset 2, SP 1, spare 1 (zero), stack 32."
// Document 02, Q-9: the spare byte is the share.
ghost use Rattle.std.specs.Prelude.{◌≡◌, ◌<◌, length, take};
ghost use Rattle.buffer.specs.Buffer.{overwrite, part, word_bytes};
ghost use Rattle.disc.specs.Layout.{name_size};
ghost use Rattle.machine.specs.Area.{kernel_of, process_bytes, process_of, register_bytes};
ghost use Rattle.machine.specs.Limits.{area_length, next_at, record_size, slot_count};
ghost use Rattle.machine.specs.State.{process_at};
ghost use Rattle.area.specs.Parts.{record_at};

use disc::layout::NAME_SIZE;
use machine::limits::{NEXT_AT, RECORD_SIZE, RECORDS_AT, STACK_SIZE};
use machine::{OpenFile, Process};
use place::Run;

// Where the fields of a record begin.
pub const ID_AT: usize = 12;

pub const STATE_AT: usize = 14;

pub const FAULT_AT: usize = 15;

pub const CODE_AT: usize = 16;

pub const PC_AT: usize = 20;

pub const LOOP_AT: usize = 22;

pub const FILE_AT: usize = 24;

pub const SP_AT: usize = 30;

pub const SHARE_AT: usize = 31;

pub const STACK_AT: usize = 32;

// Document 01: "state 1 ('r' running, 'p' paused, 0 ended)"
pub const RUNNING: u8 = b'r';

pub const PAUSED: u8 = b'p';

// Document 01: "loop 2 (hex FFFF: none)"
pub const NO_LOOP: u16 = 65535;

// The bytes between name and stack.
const REGISTER_SIZE: usize = 20;

// The bytes of the record in that slot. A slice, and not an array's reference, which the library hands out in an
// Option: that lies in memory otherwise where pointers are shorter (tools/ports/lint.py).
pub fn record_at(area: &[u8], slot: usize) -> &[u8]
    requires area_len { length area.now ≡ area_length }
    requires slot_lt_slot_count { slot < slot_count }
    ensures { (result.now ≡ part area.now (record_at slot) record_size) × (length result.now ≡ record_size) }
{
    let at = RECORDS_AT + slot * RECORD_SIZE;
    let end = at + RECORD_SIZE;
    &area[at..end]
}

// The name byte by byte and not by a loop: compiled, it is three words, and a copy of so few bytes costs more.
fn name_of(bytes: &[u8]) -> [u8; NAME_SIZE]
    requires { length bytes.now ≡ record_size }
    ensures { result ≡ take name_size bytes.now }
{
    [
        bytes[0], bytes[1], bytes[2], bytes[3], bytes[4], bytes[5], bytes[6], bytes[7], bytes[8],
        bytes[9], bytes[10], bytes[11],
    ]
}

// The process that a record's bytes say.
fn process_of(bytes: &[u8]) -> Process
    requires { length bytes.now ≡ record_size }
    ensures { result ≡ process_of bytes.now }
{
    let name = name_of(bytes);
    let mut stack = [0u8; STACK_SIZE];
    buffer::bytes::copy_part(&mut stack, bytes, STACK_AT);
    Process {
        name: name,
        id: buffer::bytes::word_at(bytes, ID_AT),
        state: bytes[STATE_AT],
        fault: bytes[FAULT_AT],
        code: Run {
            start: buffer::bytes::word_at(bytes, CODE_AT),
            len: buffer::bytes::word_at(bytes, CODE_AT + 2),
        },
        pc: buffer::bytes::word_at(bytes, PC_AT),
        loopstart: buffer::bytes::word_at(bytes, LOOP_AT),
        file: OpenFile {
            start: buffer::bytes::word_at(bytes, FILE_AT),
            len: buffer::bytes::word_at(bytes, FILE_AT + 2),
            offset: buffer::bytes::word_at(bytes, FILE_AT + 4),
        },
        sp: bytes[SP_AT],
        share: bytes[SHARE_AT],
        stack: stack,
    }
}

pub fn process_at(area: &[u8], slot: usize) -> Process
    requires area_len { length area.now ≡ area_length }
    requires slot_lt_slot_count { slot < slot_count }
    ensures { result ≡ process_at (kernel_of area.now) slot }
{
    process_of(record_at(area, slot))
}

fn register_bytes(p: Process) -> [u8; REGISTER_SIZE]
    ensures { result ≡ register_bytes p }
{
    [
        buffer::bytes::low(p.id),
        buffer::bytes::high(p.id),
        p.state,
        p.fault,
        buffer::bytes::low(p.code.start),
        buffer::bytes::high(p.code.start),
        buffer::bytes::low(p.code.len),
        buffer::bytes::high(p.code.len),
        buffer::bytes::low(p.pc),
        buffer::bytes::high(p.pc),
        buffer::bytes::low(p.loopstart),
        buffer::bytes::high(p.loopstart),
        buffer::bytes::low(p.file.start),
        buffer::bytes::high(p.file.start),
        buffer::bytes::low(p.file.len),
        buffer::bytes::high(p.file.len),
        buffer::bytes::low(p.file.offset),
        buffer::bytes::high(p.file.offset),
        p.sp,
        p.share,
    ]
}

pub fn put_process(area: &mut [u8], slot: usize, p: Process)
    requires area_len { length area.old ≡ area_length }
    requires slot_lt_slot_count { slot < slot_count }
    ensures { area.new ≡ overwrite area.old (record_at slot) (process_bytes p) }
{
    let at = RECORDS_AT + slot * RECORD_SIZE;
    let name = p.name;
    let registers = register_bytes(p);
    let stack = p.stack;
    buffer::bytes::overwrite_at(area, at, &name);
    buffer::bytes::overwrite_at(area, at + NAME_SIZE, &registers);
    buffer::bytes::overwrite_at(area, at + STACK_AT, &stack);
}

pub fn next_id(area: &[u8]) -> u16
    requires { length area.now ≡ area_length }
    ensures { result ≡ (kernel_of area.now).next }
{
    buffer::bytes::word_at(area, NEXT_AT)
}

pub fn put_next_id(area: &mut [u8], next: u16)
    requires { length area.old ≡ area_length }
    ensures { area.new ≡ overwrite area.old next_at (word_bytes next) }
{
    let low = buffer::bytes::low(next);
    let high = buffer::bytes::high(next);
    let bytes = [low, high];
    buffer::bytes::overwrite_at(area, NEXT_AT, &bytes);
}

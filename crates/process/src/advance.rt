// A process's record after a step, in the work area.
ghost use Rattle.std.specs.Prelude.{◌++◌, ◌≡◌, ◌+◌, ◌-◌, ◌<◌, ◌≤◌, length};
ghost use Rattle.area.specs.Parts.{record_at};
ghost use Rattle.buffer.specs.Buffer.{overwrite, zeros};
ghost use Rattle.machine.specs.Area.{kernel_bytes, kernel_of, stack_at};
ghost use Rattle.machine.specs.Limits.{area_length, slot_count, stack_size};
ghost use Rattle.machine.specs.State.{process_at, with_process};
ghost use Rattle.process.specs.Stepping.{Room, pc_at, registers_from, went_on};

use area::records::{PC_AT, STACK_AT};
use machine::limits::{RECORD_SIZE, RECORDS_AT, STACK_SIZE};
use machine::{OpenFile, Process};

// A process's whole record, 64 bytes and no other: at its start, its end and a command.
pub fn put_back(area: &mut [u8], slot: usize, p: Process)
    requires { (length area.old ≡ area_length) × (slot < slot_count) }
    ensures { area.new ≡ kernel_bytes (with_process (kernel_of area.old) slot p) }
{
    area::records::put_process(area, slot, p);
}

// PC, loop, open file and SP, which stand one behind the other.
fn put_registers(area: &mut [u8], slot: usize, pc: u16, loopstart: u16, file: OpenFile, sp: u8)
    requires { (length area.old ≡ area_length) × (slot < slot_count) }
    ensures { area.new
        ≡ overwrite area.old (record_at slot + pc_at) (registers_from pc loopstart file sp) }
{
    let bytes = [
        buffer::bytes::low(pc),
        buffer::bytes::high(pc),
        buffer::bytes::low(loopstart),
        buffer::bytes::high(loopstart),
        buffer::bytes::low(file.start),
        buffer::bytes::high(file.start),
        buffer::bytes::low(file.len),
        buffer::bytes::high(file.len),
        buffer::bytes::low(file.offset),
        buffer::bytes::high(file.offset),
        sp,
    ];
    buffer::bytes::overwrite_at(area, RECORDS_AT + slot * RECORD_SIZE + PC_AT, &bytes);
}

// These bytes above the first `kept` of the stack. Document 01: "After its turn, stack bytes above SP are zero."
fn put_stack(area: &mut [u8], slot: usize, kept: usize, head: &[u8], tail: &[u8])
    requires { (length area.old ≡ area_length) × (slot < slot_count)
        × (kept + length head.now + length tail.now ≤ stack_size) }
    ensures { area.new ≡ overwrite area.old (record_at slot + stack_at + kept)
        (head.now ++ tail.now
        ++ zeros (stack_size - (kept + length head.now + length tail.now))) }
{
    let bottom = RECORDS_AT + slot * RECORD_SIZE + STACK_AT;
    let middle = kept + head.len();
    let sp = middle + tail.len();
    buffer::bytes::overwrite_at(area, bottom + kept, head);
    buffer::bytes::overwrite_at(area, bottom + middle, tail);
    buffer::bytes::zero_at(area, bottom + sp, STACK_SIZE - sp);
}

// The process of that slot goes on: at pc, with the first `kept` bytes of its stack, these above them, and this file.
// Only what changes is written.
pub fn go_on(
    area: &mut [u8],
    slot: usize,
    kept: u8,
    pc: u16,
    loopstart: u16,
    head: &[u8],
    tail: &[u8],
    file: OpenFile,
)
    requires { (length area.old ≡ area_length) × (slot < slot_count)
        × Room (process_at (kernel_of area.old) slot) kept (length head.now + length tail.now) }
    ensures { area.new ≡ kernel_bytes (went_on (kernel_of area.old) slot kept pc loopstart
        head.now tail.now file) }
{
    let below = kept as usize;
    let sp = below + head.len() + tail.len();
    put_registers(area, slot, pc, loopstart, file, sp as u8);
    put_stack(area, slot, below, head, tail);
}

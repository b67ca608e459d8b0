// The ten processes of the work area: copied out, and the searches among their records.
ghost use Rattle.std.specs.Prelude.{◌≡◌, length};
ghost use Rattle.machine.specs.Area.{kernel_of, process_of};
ghost use Rattle.machine.specs.GoodArea.{is_open_in, is_program};
ghost use Rattle.machine.specs.Limits.{area_length, record_size};
ghost use Rattle.machine.specs.Operations.{in_use, uses};
ghost use Rattle.machine.specs.State.{ended_slot, has_id, is_live, slot_of};

use crate::records::{CODE_AT, FILE_AT, ID_AT, PAUSED, RUNNING, STATE_AT, process_at, record_at};
use disc::Entry;
use disc::layout::NAME_SIZE;
use machine::Process;
use machine::limits::SLOT_COUNT;
use std::array;

// Document 01: "ten of them in the kernel state, copied out, stepped, put back."
pub fn processes_of(area: &[u8]) -> [Process; SLOT_COUNT]
    requires { length area.now ≡ area_length }
    ensures { result ≡ (kernel_of area.now).processes }
{
    array::from_fn(|slot| process_at(area, slot))
}

// ---- tests of a record's bytes
// Document 01: "Live means running or paused."
pub fn is_live(bytes: &[u8]) -> bool
    requires { length bytes.now ≡ record_size }
    ensures { result ≡ is_live (process_of bytes.now) }
{
    let state = bytes[STATE_AT];
    (state == RUNNING) | (state == PAUSED)
}

fn has_id(bytes: &[u8], id: u32) -> bool
    requires { length bytes.now ≡ record_size }
    ensures { result ≡ has_id id (process_of bytes.now) }
{
    is_live(bytes) & (buffer::bytes::word_at(bytes, ID_AT) as u32 == id)
}

fn is_program(bytes: &[u8], e: Entry) -> bool
    requires { length bytes.now ≡ record_size }
    ensures { result ≡ is_program (process_of bytes.now) e }
{
    let name = e.name;
    let named = buffer::bytes::same_bytes(&bytes[..NAME_SIZE], &name);
    let start = buffer::bytes::word_at(bytes, CODE_AT);
    let len = buffer::bytes::word_at(bytes, CODE_AT + 2);
    named & ((start == e.start) & (len == e.len))
}

fn is_open_in(bytes: &[u8], e: Entry) -> bool
    requires { length bytes.now ≡ record_size }
    ensures { result ≡ is_open_in (process_of bytes.now).file e }
{
    let start = buffer::bytes::word_at(bytes, FILE_AT);
    let len = buffer::bytes::word_at(bytes, FILE_AT + 2);
    (start == e.start) & (len == e.len)
}

fn is_user(bytes: &[u8], e: Entry) -> bool
    requires { length bytes.now ≡ record_size }
    ensures { result ≡ uses e (process_of bytes.now) }
{
    is_live(bytes) & (is_program(bytes, e) | is_open_in(bytes, e))
}

// ---- searches
// The slot of a live ID. IDs are compared as whole numbers: none above 65,535 is anybody's.
pub fn slot_of(area: &[u8], id: u32) -> Option<usize>
    requires { length area.now ≡ area_length }
    ensures { result ≡ slot_of (kernel_of area.now) id }
{
    (0..SLOT_COUNT).find(|slot| has_id(record_at(area, *slot), id))
}

// Document 01: "Takes the lowest ended slot"
pub fn ended_slot(area: &[u8]) -> Option<usize>
    requires { length area.now ≡ area_length }
    ensures { result ≡ ended_slot (kernel_of area.now) }
{
    (0..SLOT_COUNT).find(|slot| !is_live(record_at(area, *slot)))
}

// Document 01, Erase: "11 a live process runs it or has it open."
pub fn is_in_use(area: &[u8], e: Entry) -> bool
    requires { length area.now ≡ area_length }
    ensures { result ≡ in_use (kernel_of area.now) e }
{
    (0..SLOT_COUNT).any(|slot| is_user(record_at(area, slot), e))
}

// The IDs of live processes, by slot.
ghost use Rattle.std.specs.Prelude.{◌≡◌, ◌<◌, get_or, length, take};
ghost use Rattle.buffer.specs.Lists.{all, pairs};
ghost use Rattle.machine.specs.Area.{process_of};
ghost use Rattle.machine.specs.Limits.{area_length, record_size, slot_count};
ghost use Rattle.validation.specs.Columns.{differs, slot_id, slot_ids};

use super::records::is_live;
use area::records::{ID_AT, STATE_AT, record_at};
use buffer::bytes::word_at;
use machine::limits::SLOT_COUNT;
use std::array;

// 0, which is no live process's, where nothing lives.
fn live_id(bytes: &[u8]) -> u16
    requires { length bytes.now ≡ record_size }
    ensures { result ≡ slot_id (process_of bytes.now) }
{
    if is_live(bytes[STATE_AT]) {
        return word_at(bytes, ID_AT);
    }
    0
}

pub fn live_ids(area: &[u8]) -> [u16; SLOT_COUNT]
    requires { length area.now ≡ area_length }
    ensures { result ≡ slot_ids area.now }
{
    array::from_fn(|slot| live_id(record_at(area, slot)))
}

// Whether slot i has no ID, or one that no earlier slot has. No way out of the loop: speed.
fn is_new(ids: &[u16; SLOT_COUNT], i: usize) -> bool
    requires { (length ids.now ≡ slot_count) × (i < slot_count) }
    ensures { result ≡ all (λ d. differs d (get_or ids.now i 0)) (take i ids.now) }
{
    let id = ids[i];
    if id == 0 {
        return true;
    }
    let mut new = true;
    for j in 0..i {
        new = new & (ids[j] != id);
    }
    new
}

// "distinct live IDs"
pub fn are_distinct(ids: &[u16; SLOT_COUNT]) -> bool
    requires { length ids.now ≡ slot_count }
    ensures { result ≡ pairs differs ids.now }
{
    (0..SLOT_COUNT).all(|i| is_new(ids, i))
}

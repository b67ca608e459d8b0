// A round: for each slot that runs when it is reached, as many turns as its share.
ghost use Rattle.std.specs.Prelude.{◌≡◌, ◌<◌, ◌≤◌, length};
ghost use Rattle.machine.specs.Area.{kernel_of};
ghost use Rattle.machine.specs.Limits.{area_length, round_room, share_room, slot_count, turn_room};
ghost use Rattle.machine.specs.Operations.{round_of, share_of_turns, turn_if_running};
ghost use Rattle.machine.specs.Refusals.{Passes};
ghost use Rattle.machine.specs.State.{is_running, process_at};
ghost use Rattle.turn.specs.Turns.{due, turn_left, turn_left_by};

use crate::take::take_turn;
use area::records::{RUNNING, SHARE_AT, STATE_AT, process_at, record_at};
use machine::limits::SLOT_COUNT;

pub fn is_running(area: &[u8], slot: usize) -> bool
    requires { (length area.now ≡ area_length) × (slot < slot_count) }
    ensures { result ≡ is_running (process_at (kernel_of area.now) slot) }
{
    let bytes = record_at(area, slot);
    bytes[STATE_AT] == RUNNING
}

// Document 01: "each if running when reached".
fn turn_if_running(
    disc: &mut [u8],
    area: &mut [u8],
    slot: usize,
    clock: u32,
    out: &mut [u8],
) -> usize
    requires { Passes disc.old area.old × (slot < slot_count) × (turn_room ≤ length out.old) }
    ensures { turn_left result disc.new area.new out.new
        ≡ turn_left_by (turn_if_running (kernel_of area.old) slot clock disc.old)
        out.old }
{
    let p = process_at(area, slot);
    if p.state == RUNNING {
        return take_turn(disc, area, slot, p, clock, out);
    }
    0
}

// Document 02, Q-9: "The spare byte holds 1 to 8, with zero as one". None is due to a slot that does not run.
fn turns_due(area: &[u8], slot: usize) -> u8
    requires { (length area.now ≡ area_length) × (slot < slot_count) }
    ensures { result ≡ due (process_at (kernel_of area.now) slot) }
{
    let bytes = record_at(area, slot);
    if bytes[STATE_AT] != RUNNING {
        return 0;
    }
    if bytes[SHARE_AT] == 0 {
        return 1;
    }
    bytes[SHARE_AT]
}

// Document 02, Q-9: "that many turns in a row while it stays running". The share is the one that the slot has when it
// is reached.
fn take_share(disc: &mut [u8], area: &mut [u8], slot: usize, clock: u32, out: &mut [u8]) -> usize
    requires { Passes disc.old area.old × (slot < slot_count) × (share_room ≤ length out.old) }
    ensures { turn_left result disc.new area.new out.new
        ≡ turn_left_by (share_of_turns (kernel_of area.old) slot clock disc.old)
        out.old }
{
    let due = turns_due(area, slot);
    let mut printed = 0;
    for _taken in 0..due {
        printed += turn_if_running(disc, area, slot, clock, &mut out[printed..]);
    }
    printed
}

// Document 01: "slots 0 to 9, [..] under one clock reading, outputs joined". Good buffers stay good, so each turn finds
// them as it needs them.
pub fn take_turns(disc: &mut [u8], area: &mut [u8], clock: u32, out: &mut [u8]) -> usize
    requires { Passes disc.old area.old × (round_room ≤ length out.old) }
    ensures { (turn_left result disc.new area.new out.new
        ≡ turn_left_by (round_of (kernel_of area.old) clock disc.old) out.old)
        × (result ≤ round_room) }
{
    let mut printed = 0;
    for slot in 0..SLOT_COUNT {
        printed += take_share(disc, area, slot, clock, &mut out[printed..]);
    }
    printed
}

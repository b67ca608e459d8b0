// Starting a program: what run and FORK share.
ghost use Rattle.std.specs.Prelude.{◌≡◌, ◌<◌, length};
ghost use Rattle.machine.specs.Area.{kernel_bytes, kernel_of};
ghost use Rattle.machine.specs.Limits.{area_length, slot_count};
ghost use Rattle.machine.specs.Start.{started, starting};
ghost use Rattle.request.specs.Starts.{Inside, starting_of};
ghost use Rattle.disc.specs.Directory.{Readable};

use crate::Launch;
use area::ending::started_process;
use area::processes::ended_slot;
use area::records::{next_id, put_next_id};
use disc::Entry;
use machine::limits::ID_LIMIT;
use process::advance::put_back;
use store::Refusal;

// Document 01, Run: "12 no ended slot, 10, 13 next ID is 32768. Takes the lowest ended slot"
pub fn find_start(disc: &[u8], area: &[u8], name: &[u8]) -> Result<Launch, Refusal>
    requires { Readable disc.now × (length area.now ≡ area_length) }
    ensures { (starting_of disc.now result
        ≡ starting (kernel_of area.now) disc.now name.now)
        × Inside disc.now area.now result }
{
    let slot = ended_slot(area).ok_or(Refusal::NoSlot)?;
    let place = disc::directory::find(disc, name).ok_or(Refusal::NoSuchFile)?;
    if next_id(area) == ID_LIMIT {
        return Err(Refusal::NoId);
    }
    Ok(Launch { slot, place })
}

// The record filled, and next ID counted on.
pub fn start(area: &mut [u8], slot: usize, e: Entry)
    requires { (length area.old ≡ area_length) × (slot < slot_count) × ((kernel_of area.old).next < 65535) }
    ensures { area.new ≡ kernel_bytes (started (kernel_of area.old) slot e) }
{
    let next = next_id(area);
    put_back(area, slot, started_process(e, next));
    put_next_id(area, next + 1);
}

// A process's end, on the work area.
ghost use Rattle.std.specs.Prelude.{◌≡◌, ◌<◌, ◌≤◌, length};
ghost use Rattle.machine.specs.Area.{kernel_bytes, kernel_of};
ghost use Rattle.machine.specs.Limits.{area_length, slot_count};
ghost use Rattle.machine.specs.Ended.{ended};
ghost use Rattle.machine.specs.Fault.{fault_number};
ghost use Rattle.variable.specs.Limits.{max_variables};

use crate::advance::put_back;
use machine::fault::Fault;

// Document 01: "Ending (STOP, kill, fault) frees the process's variables. Its record keeps name, ID and fault (0 unless
// a fault) and is otherwise zero."
pub fn finish(area: &mut [u8], slot: usize, fault: u8)
    requires { (length area.old ≡ area_length) × (slot < slot_count)
        × ((kernel_of area.old).variables.count ≤ max_variables) }
    ensures { area.new ≡ kernel_bytes (ended (kernel_of area.old) slot fault) }
{
    let p = area::records::process_at(area, slot);
    area::variables::free_in(area, |e| e.owner == p.id);
    put_back(area, slot, area::ending::ended_process(p, fault));
}

// The end by a fault.
pub fn fail(area: &mut [u8], slot: usize, fault: Fault)
    requires { (length area.old ≡ area_length) × (slot < slot_count)
        × ((kernel_of area.old).variables.count ≤ max_variables) }
    ensures { area.new ≡ kernel_bytes (ended (kernel_of area.old) slot (fault_number fault)) }
{
    finish(area, slot, fault.number());
}

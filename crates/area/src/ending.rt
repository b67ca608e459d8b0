// A process's record at its start and at its end.
ghost use Rattle.std.specs.Prelude.{◌≡◌};
ghost use Rattle.machine.specs.Start.{started_process};
ghost use Rattle.machine.specs.Ended.{ended_process};

use crate::records::{NO_LOOP, RUNNING};
use disc::Entry;
use disc::layout::NAME_SIZE;
use machine::limits::STACK_SIZE;
use machine::{OpenFile, Process};
use place::Run;

// A record of zeros.
const NO_PROCESS: Process = Process {
    name: [0; NAME_SIZE],
    id: 0,
    state: 0,
    fault: 0,
    code: Run { start: 0, len: 0 },
    pc: 0,
    loopstart: 0,
    file: OpenFile {
        start: 0,
        len: 0,
        offset: 0,
    },
    sp: 0,
    share: 0,
    stack: [0; STACK_SIZE],
};

// Document 01: "Its record keeps name, ID and fault (0 unless a fault) and is otherwise zero." The fault is the
// record's byte and not the enum: `ended_process` and `ended` are defined of every number, and docs/PROOFS.md names
// both.
pub fn ended_process(p: Process, fault: u8) -> Process
    ensures { result ≡ ended_process p fault }
{
    let name = p.name;
    Process {
        name,
        id: p.id,
        fault,
        ..NO_PROCESS
    }
}

// Document 01, Run: "state 'r', no loop, name, ID and code filled in, all else of the record zero."
pub fn started_process(e: Entry, id: u16) -> Process
    ensures { result ≡ started_process e id }
{
    let name = e.name;
    Process {
        name,
        id,
        state: RUNNING,
        code: Run {
            start: e.start,
            len: e.len,
        },
        loopstart: NO_LOOP,
        ..NO_PROCESS
    }
}

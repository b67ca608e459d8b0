// What the kernel is: definitions in specs/, their consequences in proofs/. The code of the work area and of the turn
// comes in crates that use this one.
#![tactic(auto)]

pub mod fault;
pub mod instruction;
pub mod limits;

ghost use Rattle.machine.specs.Demands.{BytesKept, EventsAreCalls, FaultTouchesOwn, GoodKept, LengthsKept};
ghost use Rattle.machine.specs.Demands.{PlacesRefusedOnly, RoundIsTurns, RoundOutputBound, TurnOutputBound};
ghost use Rattle.machine.specs.DiscLengths.{EitherLength};
ghost use Rattle.machine.specs.Done.{DoneExactly};
ghost use Rattle.machine.specs.Isolation.{Isolation};
ghost use Rattle.machine.specs.LeftAlone.{LeavesAlone};
ghost use Rattle.machine.specs.NewFile.{NewFileReadsEmpty};
ghost use Rattle.machine.specs.Reaching.{ReachesExactly};
ghost use Rattle.machine.specs.Tests.{RefusedExactly};
ghost use Rattle.machine.specs.Waiting.{WaitsKeepTime};

use disc::layout::NAME_SIZE;
use limits::{SLOT_COUNT, STACK_SIZE, ZEROS_SIZE};
use place::Run;
use variable::Variables;

// The file that a process has open, and how far it has read or written. Length 0: none.
#[derive(Clone, Copy)]
pub struct OpenFile {
    pub start: u16,
    pub len: u16,
    pub offset: u16,
}

// Document 01: "each process record carries its own 32-byte stack." State and fault are bytes, and no enums: a record
// is defined of any 64 bytes, and its bytes of any record (`process_of`, `process_bytes`).
#[derive(Clone, Copy)]
pub struct Process {
    pub name: [u8; NAME_SIZE],
    pub id: u16,
    pub state: u8,
    pub fault: u8,
    pub code: Run,
    pub pc: u16,
    pub loopstart: u16,
    pub file: OpenFile,
    pub sp: u8,
    pub share: u8,
    pub stack: [u8; STACK_SIZE],
}

// The work area as a value: every byte of it has its place here. Only the definitions have it.
#[derive(Clone, Copy)]
pub struct Kernel {
    pub variables: Variables,
    pub next: u16,
    pub zeros: [u8; ZEROS_SIZE],
    pub processes: [Process; SLOT_COUNT],
}

// Document 02, Q-4: MILLIS, INT d, PLUS, DELAYUNTIL waits d milliseconds, from every time on.
pub fn waits_keep_time()
    ensures { WaitsKeepTime }
{}

// Document 02, Q-8: READSTRING as the next instruction after an OPEN that creates its file gives the empty string,
// whatever others do between, if nobody writes into the file.
pub fn new_file_reads_empty()
    ensures { NewFileReadsEmpty }
{}

// Document 02, Q-2: what an empty disc of either length takes, and that of other lengths nothing new is said.
pub fn either_length()
    ensures { EitherLength }
{}

// Demand 3 in one piece: nothing but its own turns and commands shifts a process's stack, variables, place, output or
// end.
pub fn isolation()
    ensures { Isolation }
{}

// Every call is refused by the first of document 01's tests that fails, and then changes no byte; if none fails it is
// done.
pub fn refused_exactly()
    ensures { RefusedExactly }
{}

// A turn that ends its process, by STOP or a fault, touches nothing but the record and the variables of that process.
pub fn fault_touches_own()
    ensures { FaultTouchesOwn }
{}

// A SET or an OPEN's new file lacks a place only when its table is full or no run of free bytes is long enough; the new
// file also by name or size.
pub fn places_refused_only()
    ensures { PlacesRefusedOnly }
{}

// SET, the file instructions, FORK and WAITUNTILDONE: what is due is done, and which fault comes of what.
pub fn reaches_exactly()
    ensures { ReachesExactly }
{}

// What a done call answers, and what it leaves of disc, output and the processes it concerns.
pub fn done_exactly()
    ensures { DoneExactly }
{}

// What a call leaves alone: buffers that it does not take, the output behind what it writes, other processes and files.
pub fn leaves_alone()
    ensures { LeavesAlone }
{}

// No call changes the length of the disc, the work area or the output.
pub fn lengths_kept()
    ensures { LengthsKept }
{}

// Every call keeps good buffers good; format and boot make them.
pub fn good_kept()
    ensures { GoodKept }
{}

// From buffers of bytes every call leaves buffers of bytes.
pub fn bytes_kept()
    ensures { BytesKept }
{}

// A done round is exactly its turns, in slot order, on the buffers as each finds them.
pub fn round_is_turns()
    ensures { RoundIsTurns }
{}

// The events of a run, which demand 3 speaks of, lead to the same disc and work area as its calls.
pub fn events_are_calls()
    ensures { EventsAreCalls }
{}

// Document 02, Q-9: a round prints at most 2,560 bytes, the output that it needs.
pub fn round_output_bound()
    ensures { RoundOutputBound }
{}

// A done turn returns at most 32: the 32 bytes of output that it asks for are enough.
pub fn turn_output_bound()
    ensures { TurnOutputBound }
{}

// Literal rows: calls on bytes, against bytes written out at their offsets.
#![tactic(auto)]

ghost use Rattle.literal_rows.specs.Goodness.{AreaRows, DiscRows, LongDiscRows};
ghost use Rattle.literal_rows.specs.NewFileExample.{NewFileExample};
ghost use Rattle.literal_rows.specs.NewFiles.{NewFilesOnBytes};
ghost use Rattle.literal_rows.specs.Programs.{BenchOnBytes, WaitsOnBytes};
ghost use Rattle.literal_rows.specs.Run.{Listings, RunOnBytes};

// A run from format to turns, suspend and kill: every number, every byte of disc and work area.
pub fn run_on_bytes()
    ensures { RunOnBytes }
{}

// What files and list write then.
pub fn listings()
    ensures { Listings }
{}

// One byte of that work area changed: which stay good, and which do not.
pub fn area_rows()
    ensures { AreaRows }
{}

// The same of that disc.
pub fn disc_rows()
    ensures { DiscRows }
{}

// Document 02, Q-2: the files of that disc on a long one, up to its last byte and past it.
pub fn long_disc_rows()
    ensures { LongDiscRows }
{}

// Document 01's bench cases K1 to K11 through the calls store, run and turn.
pub fn bench_on_bytes()
    ensures { BenchOnBytes }
{}

// Document 02, Q-4: the request's own wait, each turn with its clock.
pub fn waits_on_bytes()
    ensures { WaitsOnBytes }
{}

// Document 02, Q-8: a log erased and created again is zeros, one that was not erased keeps its bytes.
pub fn new_files_on_bytes()
    ensures { NewFilesOnBytes }
{}

// Document 02, Q-8: the law about new files is not empty; a run in which all that it supposes holds.
pub fn new_file_example()
    ensures { NewFileExample }
{}

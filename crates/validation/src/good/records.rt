// The ten process records, each tested on its bytes against the directory.
ghost use Rattle.std.specs.Prelude.{◌≡◌, true, ◌||◌, ◌+◌, ◌<◌, eqb, length};
ghost use Rattle.buffer.specs.Lists.{all, any};
ghost use Rattle.disc.specs.Directory.{Readable, files};
ghost use Rattle.machine.specs.Area.{kernel_of, process_of};
ghost use Rattle.machine.specs.GoodArea.{good_file, good_live, good_process, good_registers, is_program};
ghost use Rattle.machine.specs.Limits.{area_length, record_size};
ghost use Rattle.machine.specs.State.{paused, running};
ghost use Rattle.validation.specs.Columns.{FileOf, Listed, file_runs};

use area::records::{
    CODE_AT, FILE_AT, ID_AT, LOOP_AT, NO_LOOP, PAUSED, PC_AT, RUNNING, SHARE_AT, SP_AT, STATE_AT,
    record_at,
};
use buffer::bytes::{four_at, word_at};
use disc::layout::{ENTRY_SIZE, MAX_FILES, NAME_SIZE};
use machine::limits::{MAX_SHARE, NEXT_AT, SLOT_COUNT, STACK_SIZE};

// Start and length of each file as one number; behind the last file 0, which is no file's.
pub fn file_runs(disc: &[u8]) -> [u32; MAX_FILES]
    requires { Readable disc.now }
    ensures { result ≡ file_runs disc.now }
{
    let count = disc::directory::file_count(disc);
    let mut runs = [0u32; MAX_FILES];
    for i in 0..count {
        runs[i] = four_at(disc, i * ENTRY_SIZE + NAME_SIZE);
    }
    runs
}

// The place of the first file of that start and length.
fn file_of(runs: &[u32; MAX_FILES], run: u32) -> Option<usize>
    ensures { FileOf runs.now run result }
{
    (0..MAX_FILES).find(|i| runs[*i] == run)
}

// Document 01: "Live means running or paused."
pub fn is_live(state: u8) -> bool
    ensures { result ≡ eqb state running || eqb state paused }
{
    (state == RUNNING) | (state == PAUSED)
}

// "code equal to the directory's file of that name"
fn is_good_program(disc: &[u8], runs: &[u32; MAX_FILES], bytes: &[u8]) -> bool
    requires { (Listed disc.now runs.now) × (length bytes.now ≡ record_size) }
    ensures { result ≡ any (is_program (process_of bytes.now)) (files disc.now) }
{
    let run = four_at(bytes, CODE_AT);
    if run == 0 {
        return false;
    }
    match file_of(runs, run) {
        Some(file) => disc::good::same_name(bytes, 0, disc, file * ENTRY_SIZE),
        None => false,
    }
}

// "file offset at most [its] length", "an open file equal to some directory file"
fn is_good_file(disc: &[u8], runs: &[u32; MAX_FILES], bytes: &[u8]) -> bool
    requires { (Listed disc.now runs.now) × (length bytes.now ≡ record_size) }
    ensures { result ≡ good_file (files disc.now) (process_of bytes.now).file }
{
    let len = word_at(bytes, FILE_AT + 2);
    let offset = word_at(bytes, FILE_AT + 4);
    if len == 0 {
        return offset == 0;
    }
    if len < offset {
        return false;
    }
    file_of(runs, four_at(bytes, FILE_AT)).is_some()
}

// Document 02, Q-9: a live record's share is at most 8; "SP at most 32, PC, loop (unless none) [..] at most their
// lengths"
fn are_good_registers(bytes: &[u8]) -> bool
    requires { length bytes.now ≡ record_size }
    ensures { result ≡ good_registers (process_of bytes.now) }
{
    let len = word_at(bytes, CODE_AT + 2);
    let pc = word_at(bytes, PC_AT);
    let start = word_at(bytes, LOOP_AT);
    (bytes[SHARE_AT] <= MAX_SHARE)
        & ((bytes[SP_AT] as usize <= STACK_SIZE)
            & ((pc <= len) & ((start == NO_LOOP) | (start <= len))))
}

fn is_good_live(disc: &[u8], runs: &[u32; MAX_FILES], next: u16, bytes: &[u8]) -> bool
    requires { (Listed disc.now runs.now) × (length bytes.now ≡ record_size) }
    ensures { result ≡ good_live (files disc.now) next (process_of bytes.now) }
{
    let id = word_at(bytes, ID_AT);
    if id < 1 {
        return false;
    }
    if next <= id {
        return false;
    }
    if !are_good_registers(bytes) {
        return false;
    }
    if !is_good_program(disc, runs, bytes) {
        return false;
    }
    is_good_file(disc, runs, bytes)
}

// "known states"; "all of an ended record but its state [is] not read"
fn is_good_record(disc: &[u8], runs: &[u32; MAX_FILES], next: u16, bytes: &[u8]) -> bool
    requires { (Listed disc.now runs.now) × (length bytes.now ≡ record_size) }
    ensures { result ≡ good_process (files disc.now) next (process_of bytes.now) }
{
    let state = bytes[STATE_AT];
    if state == 0 {
        return true;
    }
    if !is_live(state) {
        return false;
    }
    is_good_live(disc, runs, next, bytes)
}

pub fn are_good(disc: &[u8], runs: &[u32; MAX_FILES], area: &[u8]) -> bool
    requires { (Listed disc.now runs.now) × (length area.now ≡ area_length) }
    ensures { result ≡ all (good_process (files disc.now) (kernel_of area.now).next)
        (kernel_of area.now).processes }
{
    let next = word_at(area, NEXT_AT);
    (0..SLOT_COUNT).all(|slot| is_good_record(disc, runs, next, record_at(area, slot)))
}

// What becomes of files: a new one enters, one goes, bytes are written and read inside one.
ghost use Rattle.std.specs.Prelude.{◌≡◌, ◌+◌, ◌<◌, ◌≤◌, drop, length};
ghost use Rattle.buffer.specs.Buffer.{overwrite, part, zeros};
ghost use Rattle.disc.specs.Directory.{Readable, contents, file_count};
ghost use Rattle.disc.specs.Layout.{data_start, entry_size, max_files, name_size};
ghost use Rattle.disc.specs.Name.{trimmed};
ghost use Rattle.store.specs.File.{admission, entered, erased, read_at, room_on, size_limit, stored, written_at};

use crate::Refusal;
use disc::Entry;
use disc::layout::{COUNT_AT, DATA_START, ENTRY_SIZE, MAX_FILES};
use place::Run;

// The longest file that the disc can hold.
pub fn size_limit(disc: &[u8]) -> usize
    requires { Readable disc.now }
    ensures { result ≡ size_limit disc.now }
{
    disc.len() - DATA_START
}

// Document 01, free space: "the longest free run, however many files there are".
pub fn room_on(disc: &[u8]) -> usize
    requires { Readable disc.now }
    ensures { result ≡ room_on disc.now }
{
    let count = disc::directory::file_count(disc);
    let runs = disc::directory::taken_runs(disc);
    place::longest_run(&runs[..count], DATA_START, disc.len())
}

// Whether a new file of n bytes is admitted under this name, and where it goes.
pub fn admit(disc: &[u8], name: &[u8], n: usize) -> Result<usize, Refusal>
    requires { Readable disc.now }
    ensures { result ≡ admission disc.now name.now n }
{
    if !disc::name::is_good_name(name) {
        return Err(Refusal::BadName);
    }
    if n < 1 || size_limit(disc) < n {
        return Err(Refusal::BadSize);
    }
    let count = disc::directory::file_count(disc);
    if MAX_FILES <= count {
        return Err(Refusal::DirectoryFull);
    }
    if disc::directory::find(disc, name).is_some() {
        return Err(Refusal::NameExists);
    }
    let runs = disc::directory::taken_runs(disc);
    place::find_place(&runs[..count], DATA_START, disc.len(), n).ok_or(Refusal::NoRun)
}

// Enters a file of n bytes at start; its data bytes are for the caller to write.
pub fn enter(disc: &mut [u8], name: &[u8], n: usize, start: usize)
    requires readable { Readable disc.old }
    requires disc_bound { (file_count disc.old < max_files) × (length name.now ≤ name_size) × (n < 65536)
        × (start < 65536) }
    ensures { disc.new ≡ entered disc.old name.now n start }
{
    let count = disc::directory::file_count(disc);
    let field = disc::name::pad(name);
    let entry = Entry {
        name: field,
        start: start as u16,
        len: n as u16,
    };
    disc::directory::put_entry(disc, count, entry);
    disc[COUNT_AT] = (count + 1) as u8;
}

// Enters a file of n zeros at start.
pub fn create(disc: &mut [u8], name: &[u8], n: usize, start: usize)
    requires readable { Readable disc.old }
    requires disc_bound { (file_count disc.old < max_files) × (length name.now ≤ name_size) }
    requires data_start_le_start { (data_start ≤ start) × (start + n ≤ length disc.old) }
    ensures { disc.new ≡ stored disc.old name.now (zeros n) start }
{
    enter(disc, name, n, start);
    buffer::bytes::zero_at(disc, start, n);
}

// Moves the n bytes behind the entry at `at` up by one entry. Byte by byte: the library's `copy_within` compares
// addresses, of which the code for every machine may make no numbers (tools/ports/lint.py).
fn move_up(disc: &mut [u8], at: usize, n: usize)
    requires { at + entry_size + n ≤ length disc.old }
    ensures { disc.new ≡ overwrite disc.old at
        (part disc.old (at + entry_size) n) }
{
    for i in 0..n {
        disc[at + i] = disc[at + ENTRY_SIZE + i];
    }
}

// Document 01: "Later entries move up, the vacated entry becomes zero, data bytes remain."
pub fn erase_entry(disc: &mut [u8], i: usize)
    requires readable { Readable disc.old }
    requires i_bound { i < file_count disc.old }
    ensures { disc.new ≡ erased disc.old i }
{
    let last = disc::directory::file_count(disc) - 1;
    let zeros = [0u8; ENTRY_SIZE];
    move_up(disc, i * ENTRY_SIZE, (last - i) * ENTRY_SIZE);
    buffer::bytes::overwrite_at(disc, last * ENTRY_SIZE, &zeros);
    disc[COUNT_AT] = last as u8;
}

// Writes the bytes at an offset of a file.
pub fn write_at(disc: &mut [u8], run: Run, offset: usize, bytes: &[u8])
    requires { (offset + length bytes.now ≤ run.len) × (run.start + run.len ≤ length disc.old) }
    ensures { disc.new ≡ written_at disc.old run offset bytes.now }
{
    let start = run.start as usize;
    buffer::bytes::overwrite_at(disc, start + offset, bytes);
}

// Fills out with the bytes at an offset of a file.
pub fn read_at(disc: &[u8], run: Run, offset: usize, out: &mut [u8])
    requires { (offset + length out.old ≤ run.len) × (run.start + run.len ≤ length disc.now) }
    ensures { out.new ≡ read_at disc.now run offset (length out.old) }
{
    let start = run.start as usize;
    buffer::bytes::copy_part(out, disc, start + offset);
}

// How many bytes of a file lie from an offset to the next zero, or to its end where there is none.
pub fn text_ahead(disc: &[u8], run: Run, offset: usize) -> usize
    requires { (offset ≤ run.len) × (run.start + run.len ≤ length disc.now) }
    ensures { result ≡ length (trimmed (drop offset (contents disc.now run))) }
{
    let start = run.start as usize;
    let at = start + offset;
    let end = start + run.len as usize;
    disc::name::text_length(&disc[at..end])
}

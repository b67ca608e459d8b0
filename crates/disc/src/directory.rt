// The directory: its entries, the one lookup by name, and the runs that files take.
ghost use Rattle.std.specs.Prelude.{◌≡◌, ◌+◌, ◌*◌, ◌<◌, ◌≤◌, length};
ghost use Rattle.buffer.specs.Buffer.{overwrite};
ghost use Rattle.place.specs.Place.{filled};
ghost use Rattle.disc.specs.Directory.{Readable, entry_at, entry_bytes, file_count, lookup, taken};
ghost use Rattle.disc.specs.Layout.{data_start, entry_size, max_files};

use crate::Entry;
use crate::good::same_name;
use crate::layout::{COUNT_AT, ENTRY_SIZE, NAME_SIZE};
use place::{MAX_RUNS, Run};

pub fn file_count(disc: &[u8]) -> usize
    requires { data_start ≤ length disc.now }
    ensures { result ≡ file_count disc.now }
{
    usize::from(disc[COUNT_AT])
}

pub fn entry_at(disc: &[u8], i: usize) -> Entry
    requires { (data_start ≤ length disc.now) × (i < max_files) }
    ensures { result ≡ entry_at disc.now i }
{
    let at = i * ENTRY_SIZE;
    let mut name = [0u8; NAME_SIZE];
    buffer::bytes::copy_part(&mut name, disc, at);
    let start = buffer::bytes::word_at(disc, at + NAME_SIZE);
    let len = buffer::bytes::word_at(disc, at + NAME_SIZE + 2);
    Entry { name, start, len }
}

pub fn put_entry(disc: &mut [u8], i: usize, entry: Entry)
    requires { (data_start ≤ length disc.old) × (i < max_files) }
    ensures { disc.new ≡ overwrite disc.old (i * entry_size) (entry_bytes entry) }
{
    let at = i * ENTRY_SIZE;
    let fields = [
        buffer::bytes::low(entry.start),
        buffer::bytes::high(entry.start),
        buffer::bytes::low(entry.len),
        buffer::bytes::high(entry.len),
    ];
    buffer::bytes::overwrite_at(disc, at, &entry.name);
    buffer::bytes::overwrite_at(disc, at + NAME_SIZE, &fields);
}

// One lookup for everybody. A name that is not good is no file's.
pub fn find(disc: &[u8], name: &[u8]) -> Option<usize>
    requires { Readable disc.now }
    ensures { result ≡ lookup disc.now name.now }
{
    if !crate::name::is_good_name(name) {
        return None;
    }
    let field = crate::name::pad(name);
    for i in 0..file_count(disc) {
        if same_name(disc, i * ENTRY_SIZE, &field, 0) {
            return Some(i);
        }
    }
    None
}

// The runs that files take, and nothing behind them.
pub fn taken_runs(disc: &[u8]) -> [Run; MAX_RUNS]
    requires { Readable disc.now }
    ensures { result ≡ filled (taken disc.now) }
{
    let mut runs = place::no_runs();
    for i in 0..file_count(disc) {
        runs[i] = entry_at(disc, i).run();
    }
    runs
}

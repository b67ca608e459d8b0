// The tests that every operation makes of the disc before it reads or writes a file. They run at every call, so they
// read the bytes in place, and the loop over a name's bytes has no way out and counts in 32 bits, one register on a
// small machine too; the loops over entries leave at the first that is not good or clashes: docs/DECISIONS.md says why.
ghost use Rattle.std.specs.Prelude.{◌≡◌, ◌&&◌, ◌||◌, ◌+◌, ◌<◌, ◌≤◌, eqb, length};
ghost use Rattle.buffer.specs.Buffer.{part};
ghost use Rattle.buffer.specs.Lists.{all, same, tab};
ghost use Rattle.disc.specs.Directory.{beside, entry_at, good_disc, good_entry, is_disc_length, run_of};
ghost use Rattle.disc.specs.Layout.{data_start, max_files, name_size};
ghost use Rattle.disc.specs.Name.{good_field, is_name_byte};

use crate::layout::{
    DATA_START, ENTRY_SIZE, LONG_DISC, MAX_FILES, MAX_NAME, NAME_SIZE, SHORT_DISC,
};
use buffer::bytes::{four_at, word_at};
use place::Run;

// Document 02, Q-2: "Either length is now a disc".
pub fn is_disc_length(n: usize) -> bool
    ensures { result ≡ is_disc_length n }
{
    (n == SHORT_DISC) | (n == LONG_DISC)
}

// A byte of a name, or a zero with another behind it.
fn is_field_byte(b: u8, next: u8) -> bool
    ensures { result ≡ (eqb b 0 && eqb next 0) || is_name_byte b }
{
    ((b == 0) & (next == 0)) | ((33 <= b) & (b <= 126))
}

// Document 01: "A name is 1 to 11 bytes of 33 to 126, zero-filled."
fn is_good_field(disc: &[u8], at: usize) -> bool
    requires { at + name_size ≤ length disc.now }
    ensures { result ≡ good_field (part disc.now at name_size) }
{
    let mut good = (disc[at] != 0) & (disc[at + MAX_NAME] == 0);
    for i in 0..MAX_NAME as u32 {
        let k = at + i as usize;
        good &= is_field_byte(disc[k], disc[k + 1]);
    }
    good
}

// The bytes that the file of the entry at i takes.
fn run_at(disc: &[u8], i: usize) -> Run
    requires { (data_start ≤ length disc.now) × (i < max_files) }
    ensures { result ≡ run_of (entry_at disc.now i) }
{
    let at = i * ENTRY_SIZE + NAME_SIZE;
    let start = word_at(disc, at);
    let len = word_at(disc, at + 2);
    Run { start, len }
}

fn is_good_entry(disc: &[u8], i: usize) -> bool
    requires { (data_start ≤ length disc.now) × (i < max_files) }
    ensures { result ≡ good_entry (length disc.now) (entry_at disc.now i) }
{
    // By itself, with a way out: in one test with the others, ten files take 200 ns in place of 117.
    if !is_good_field(disc, i * ENTRY_SIZE) {
        return false;
    }
    let run = run_at(disc, i);
    1 <= run.len && DATA_START <= usize::from(run.start) && run.end() as usize <= disc.len()
}

// Whether the same name stands at both places, as three numbers of four bytes: by `==` of the two parts, the tests of
// ten files take 312 ns in place of 117.
pub fn same_name(a: &[u8], i: usize, b: &[u8], j: usize) -> bool
    requires { (i + name_size ≤ length a.now) × (j + name_size ≤ length b.now) }
    ensures { result ≡ same (part a.now i name_size) (part b.now j name_size) }
{
    (four_at(a, i) == four_at(b, j))
        & ((four_at(a, i + 4) == four_at(b, j + 4)) & (four_at(a, i + 8) == four_at(b, j + 8)))
}

// Whether the entry at i is beside every earlier one.
fn is_beside_earlier(disc: &[u8], i: usize) -> bool
    requires { (data_start ≤ length disc.now) × (i < max_files) }
    ensures { result ≡ all (λ e. beside e (entry_at disc.now i)) (tab (entry_at disc.now) i) }
{
    let run = run_at(disc, i);
    for j in 0..i {
        if same_name(disc, j * ENTRY_SIZE, disc, i * ENTRY_SIZE) {
            return false;
        }
        let earlier = run_at(disc, j);
        if !run.is_apart(usize::from(earlier.start), usize::from(earlier.len)) {
            return false;
        }
    }
    true
}

pub fn is_good_disc(disc: &[u8]) -> bool
    requires { data_start ≤ length disc.now }
    ensures { result ≡ good_disc disc.now }
{
    let count = crate::directory::file_count(disc);
    if MAX_FILES < count {
        return false;
    }
    for i in 0..count {
        if !is_good_entry(disc, i) {
            return false;
        }
        if !is_beside_earlier(disc, i) {
            return false;
        }
    }
    true
}

// The discs that the cases start from.
use disc::layout::SHORT_DISC;
use disc_operation::operations::{check, store};

pub type Disc = [u8; SHORT_DISC];

pub const EMPTY: Disc = [0; SHORT_DISC];

// Erases the file of that name, if the disc is good and has one. Whether it is in use, only the kernel knows.
fn erase(disc: &mut [u8], name: &[u8]) {
    if let Ok(()) = check(disc)
        && let Some(i) = disc::directory::find(disc, name)
    {
        store::file::erase_entry(disc, i);
    }
}

// The disc after a store, and after an erase.
pub fn with(disc: &Disc, name: &[u8], data: &[u8]) -> Disc {
    let mut after = *disc;
    let _ = store(&mut after, name, data);
    after
}

pub fn without(disc: &Disc, name: &[u8]) -> Disc {
    let mut after = *disc;
    erase(&mut after, name);
    after
}

// Files of 100, 100 and 100 bytes, the second erased.
pub fn with_gap() -> Disc {
    let one = with(&EMPTY, b"one", &[1; 100]);
    let two = with(&one, b"two", &[2; 100]);
    let three = with(&two, b"three", &[3; 100]);
    without(&three, b"two")
}

// Files of ten bytes, each named by a letter and of that letter.
pub fn with_files(letters: &[u8]) -> Disc {
    letters.iter().fold(
        EMPTY,
        |disc, letter| with(&disc, &[*letter], &[*letter; 10]),
    )
}

// Two files, and garbage in the eight entries beyond the count.
pub fn with_garbage() -> Disc {
    let mut disc = with_files(b"ab");
    disc[32..160].fill(170);
    disc
}

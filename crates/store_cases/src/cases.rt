// Document 01's cases of the disc, one function each.
use crate::discs::{Disc, EMPTY, with, with_files, with_gap, with_garbage, without};
use disc::directory::entry_at;
use disc::layout::{COUNT_AT, DATA_START, ENTRY_SIZE};
use disc_operation::operations::{files, free_space, retrieve, store};
use printing::kept_array;
use std::io;
use store::answer::number;

// An output before the call.
const DOTS: [u8; 14] = [b'.'; 14];

// A store that must leave the disc as it was.
fn refused_store(
    rt: &impl Print,
    label: &str,
    disc: &Disc,
    name: &[u8],
    data: &[u8],
) -> io::Result<()> {
    kept_array(rt, label, disc, |disc| number(store(disc, name, data)))
}

// A retrieve into 14 bytes that must leave them as they were.
fn refused_retrieve(rt: &impl Print, label: &str, disc: &Disc, name: &[u8]) -> io::Result<()> {
    kept_array(rt, label, &DOTS, |out| number(retrieve(disc, name, out)))
}

// Whether the disc has these bytes from place at on.
fn part_line(rt: &impl Print, label: &str, disc: &Disc, at: usize, bytes: &[u8]) -> io::Result<()> {
    let is_right = disc.get(at..).is_some_and(|rest| rest.starts_with(bytes));
    println!(rt; "{label}: {}", if is_right { "right" } else { "wrong" })
}

// Document 01: "863 bytes store on an empty disc, 864 give 6"
pub fn sizes(rt: &impl Print) -> io::Result<()> {
    let mut disc = EMPTY;
    println!(rt;
        "store 863 bytes: {}",
        number(store(&mut disc, b"all", &[1; 863]))
    )?;
    refused_store(rt, "store 864 bytes", &EMPTY, b"all", &[1; 864])?;
    refused_store(rt, "store no bytes", &EMPTY, b"all", b"")
}

// Document 01: "files of 100, 100, 100, the second erased: 100 bytes go to 261, 101 to 461"
pub fn starts_in_gap(rt: &impl Print) -> io::Result<()> {
    for (name, data) in [("equal", &[4; 100][..]), ("longer", &[4; 101][..])] {
        let disc = with(&with_gap(), name.as_bytes(), data);
        println!(rt;
            "start of {} bytes: {}",
            data.len(),
            entry_at(&disc, 2).start
        )?;
    }
    Ok(())
}

// Document 01: "8 ten files already, 7 name exists", in that order
pub fn ten_files(rt: &impl Print) -> io::Result<()> {
    let mut disc = with_files(b"abcdefghi");
    println!(rt;
        "store the tenth file: {}",
        number(store(&mut disc, b"j", b"10"))
    )?;
    let ten = with_files(b"abcdefghij");
    refused_store(rt, "store the eleventh file", &ten, b"k", b"11")?;
    refused_store(rt, "store the tenth file again", &ten, b"j", b"10")
}

// Document 01: "5 bad name [..] 7 name exists, 9 no free run long enough"
pub fn refused_stores(rt: &impl Print) -> io::Result<()> {
    let disc = with_gap();
    refused_store(rt, "store a name that exists", &disc, b"one", b"1")?;
    refused_store(rt, "store a name with a space", &disc, b"a b", b"1")?;
    refused_store(rt, "store a name of 12 bytes", &disc, b"twelve.bytes", b"1")?;
    refused_store(rt, "store no name", &disc, b"", b"1")?;
    let label = "store 564 bytes beside free runs of 100 and 563";
    refused_store(rt, label, &disc, b"new", &[5; 564])
}

// Document 01: "1: a buffer has the wrong length."
pub fn wrong_lengths(rt: &impl Print) -> io::Result<()> {
    let short = [0; 1023];
    let long = [0; 1025];
    kept_array(
        rt,
        "store on 1023 bytes",
        &short,
        |disc| number(store(disc, b"a", b"1")),
    )?;
    kept_array(
        rt,
        "retrieve on 1023 bytes",
        &DOTS,
        |out| number(retrieve(&short, b"a", out)),
    )?;
    kept_array(
        rt,
        "files on 1025 bytes",
        &DOTS,
        |out| number(files(&long, out)),
    )?;
    println!(rt; "free space on 1025 bytes: {}", number(free_space(&long)))
}

// Document 01: "2: disc not good." One that counts eleven files is not.
pub fn damaged_disc(rt: &impl Print) -> io::Result<()> {
    let mut disc = with_gap();
    disc[COUNT_AT] = 11;
    refused_store(rt, "store on a damaged disc", &disc, b"a", b"1")?;
    refused_retrieve(rt, "retrieve on a damaged disc", &disc, b"one")?;
    kept_array(
        rt,
        "files on a damaged disc",
        &DOTS,
        |out| number(files(&disc, out)),
    )?;
    println!(rt;
        "free space on a damaged disc: {}",
        number(free_space(&disc))
    )
}

// Document 01: "a line per file, name, space, length, newline; returns the bytes written". The rest of the output
// stays.
pub fn files_text(rt: &impl Print) -> io::Result<()> {
    let disc = with(&with_gap(), b"eleven.byte", b"11");
    let mut out = [b'.'; 34];
    println!(rt; "files into 34 bytes: {}", number(files(&disc, &mut out)))?;
    rt.write_all(&out)?;
    println!(rt;)?;
    println!(rt;
        "files into 32 bytes: {}",
        number(files(&disc, &mut [b'.'; 32]))
    )?;
    kept_array(
        rt,
        "files into 31 bytes",
        &[b'.'; 31],
        |out| number(files(&disc, out)),
    )?;
    println!(rt;
        "files of an empty disc into no bytes: {}",
        number(files(&EMPTY, &mut []))
    )
}

// Document 01: "10 no such file, tried before 4. Returns the length, its bytes written."
pub fn retrieved(rt: &impl Print) -> io::Result<()> {
    let disc = with(&with_gap(), b"note", b"Hoist the jib.\n");
    let mut out = [b'.'; 17];
    println!(rt;
        "retrieve 15 bytes into 17: {}",
        number(retrieve(&disc, b"note", &mut out))
    )?;
    rt.write_all(&out)?;
    println!(rt;)?;
    refused_retrieve(rt, "retrieve 15 bytes into 14", &disc, b"note")?;
    refused_retrieve(rt, "retrieve no such file into 14", &disc, b"notes")?;
    println!(rt;
        "retrieve no such file into none: {}",
        number(retrieve(&disc, b"notes", &mut []))
    )
}

// Document 01: "Free space: the longest free run, however many files there are."
pub fn free_spaces(rt: &impl Print) -> io::Result<()> {
    let low = with(&EMPTY, b"low", &[1; 300]);
    let middle = with(&low, b"middle", &[2; 400]);
    let full = with(&middle, b"high", &[3; 163]);
    for (label, disc) in [
        ("of an empty disc", EMPTY),
        ("above two files", middle),
        ("of a full disc", full),
        ("between two files", without(&full, b"middle")),
        ("beside ten files", with_files(b"abcdefghij")),
    ] {
        println!(rt; "free space {label}: {}", number(free_space(&disc)))?;
    }
    Ok(())
}

// Document 01: "Entries beyond a count [..] are not read." A new file takes the first of them whole; the others keep
// their bytes.
pub fn uncounted_entries(rt: &impl Print) -> io::Result<()> {
    let after = with(&with_garbage(), b"c", b"1");
    let third = b"c\0\0\0\0\0\0\0\0\0\0\0\xb5\0\x01\0";
    part_line(rt, "third entry after a store", &after, 32, third)?;
    part_line(rt, "later entries after a store", &after, 48, &[170; 112])
}

// Document 01: "Later entries move up, the vacated entry becomes zero, data bytes remain."
pub fn erased_entry(rt: &impl Print) -> io::Result<()> {
    let after = without(&with_garbage(), b"a");
    let first = b"b\0\0\0\0\0\0\0\0\0\0\0\xab\0\x0a\0";
    part_line(rt, "first entry after an erase", &after, 0, first)?;
    part_line(
        rt,
        "vacated entry after an erase",
        &after,
        ENTRY_SIZE,
        &[0; ENTRY_SIZE],
    )?;
    part_line(rt, "later entries after an erase", &after, 32, &[170; 128])?;
    part_line(
        rt,
        "data of the erased file",
        &after,
        DATA_START,
        &[b'a'; 10],
    )?;
    part_line(rt, "data of the file behind it", &after, 171, &[b'b'; 10])
}

// What store and erase answer on an empty disc, on discs of another length and on a damaged one.
use disc::layout::{COUNT_AT, SHORT_DISC};
use machine::limits::AREA_LENGTH;
use printing::kept_array;
use std::io;

// A store on an empty disc, and one that must leave the disc as it was.
pub fn store(rt: &impl Print, label: &str, disc: &mut [u8], data: &[u8]) -> io::Result<()> {
    println!(rt; "{label}: {}", export::arduinos_store(disc, b"all", data))
}

pub fn refused_store<const N: usize>(
    rt: &impl Print,
    label: &str,
    disc: &[u8; N],
    data: &[u8],
) -> io::Result<()> {
    kept_array(
        rt,
        label,
        disc,
        |disc| export::arduinos_store(disc, b"all", data),
    )
}

// Document 01: "863 bytes store on an empty disc, 864 give 6"
pub fn sizes(rt: &impl Print) -> io::Result<()> {
    store(
        rt,
        "store 863 bytes on an empty disc",
        &mut [0; SHORT_DISC],
        &[1; 863],
    )?;
    refused_store(
        rt,
        "store 864 bytes on an empty disc",
        &[0; SHORT_DISC],
        &[1; 864],
    )
}

// An erase that must leave the disc as it was. The area is good.
fn erase<const N: usize>(rt: &impl Print, label: &str, disc: &[u8; N]) -> io::Result<()> {
    let mut area = [0; AREA_LENGTH];
    export::arduinos_boot(&mut area);
    kept_array(
        rt,
        label,
        disc,
        |disc| export::arduinos_erase(disc, &area, b"a"),
    )
}

// Document 01: "1: a buffer has the wrong length."
pub fn wrong_lengths(rt: &impl Print) -> io::Result<()> {
    erase(rt, "erase on a disc of 1025 bytes", &[0; 1025])?;
    erase(rt, "erase on a disc of 2048 bytes", &[0; 2048])?;
    erase(rt, "erase on a disc of 4095 bytes", &[0; 4095])
}

// Document 01: "2: disc not good." One that counts eleven files is not.
pub fn damaged(rt: &impl Print) -> io::Result<()> {
    let mut disc = [0; SHORT_DISC];
    export::arduinos_store(&mut disc, b"a", b"1");
    disc[COUNT_AT] = 11;
    erase(rt, "erase on a disc that counts eleven files", &disc)
}

// The same on the jib box's disc. Document 02, Q-2: "The jib board has 4,096 bytes."
use crate::{discs, variables};
use buffer::bytes::word_at;
use disc::layout::{ENTRY_SIZE, LONG_DISC, NAME_SIZE};
use machine::limits::AREA_LENGTH;
use std::io;

// Where the third directory entry has its start.
const THIRD_START: usize = 2 * ENTRY_SIZE + NAME_SIZE;

// "*store* takes up to 863 or 3,935"
fn sizes(rt: &impl Print) -> io::Result<()> {
    discs::store(
        rt,
        "store 3,935 bytes on an empty long disc",
        &mut [0; LONG_DISC],
        &[1; 3935],
    )?;
    discs::refused_store(
        rt,
        "store 3,936 bytes on an empty long disc",
        &[0; LONG_DISC],
        &[1; 3936],
    )
}

// Stores these bytes beside files of 100, 100 and 100 bytes, the second erased. Their entry is the third.
fn store_in_gap(disc: &mut [u8], data: &[u8]) {
    let mut area = [0; AREA_LENGTH];
    export::arduinos_format(disc, &mut area);
    for (name, byte) in [("one", 1), ("two", 2), ("three", 3)] {
        export::arduinos_store(disc, name.as_bytes(), &[byte; 100]);
    }
    export::arduinos_erase(disc, &area, b"two");
    export::arduinos_store(disc, b"new", data);
}

// Document 01, K12: "files of 100, 100, 100, the second erased: 100 bytes go to 261, 101 to 461"
fn places(rt: &impl Print) -> io::Result<()> {
    let mut disc = [0; LONG_DISC];
    for data in [&[4; 100][..], &[4; 101][..]] {
        store_in_gap(&mut disc, data);
        println!(rt;
            "start of {} bytes: {}",
            data.len(),
            word_at(&disc, THIRD_START)
        )?;
    }
    Ok(())
}

pub fn cases(rt: &impl Print) -> io::Result<()> {
    sizes(rt)?;
    println!(rt; "and on a long disc:")?;
    places(rt)?;
    let mut disc = [255; LONG_DISC];
    variables::cases(rt, &mut disc)?;
    running::bench::bench(rt, &mut disc)
}

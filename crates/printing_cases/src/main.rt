// The lines of calls that leave a buffer as it was, and of calls that change it. The gate compares them with the file
// stdout.
#![tactic(auto)]

use printing::{kept, kept_array};
use std::io;

const HOIST: [u8; 5] = *b"hoist";

// Returns the number, or 9 if the buffer has other bytes than these.
fn read(buffer: &[u8], bytes: &[u8], number: i32) -> i32 {
    if buffer == bytes { number } else { 9 }
}

// Writes the byte, if there is one.
fn write(byte: Option<&mut u8>, number: i32) -> i32 {
    if let Some(byte) = byte {
        *byte = b'!';
    }
    number
}

// Of a slice, whose length the type does not tell.
fn slice(rt: &(impl Print + AllocGlobal), bytes: &[u8], number: i32) -> io::Result<()> {
    kept(rt, "read a slice", bytes, |copy| read(copy, bytes, number))?;
    kept(
        rt,
        "write its first byte",
        bytes,
        |copy| write(copy.first_mut(), number),
    )?;
    kept(
        rt,
        "write its last byte",
        bytes,
        |copy| write(copy.last_mut(), number),
    )
}

fn arrays(rt: &impl Print) -> io::Result<()> {
    kept_array(rt, "read no byte", &[], |copy| read(copy, b"", -16))?;
    kept_array(rt, "write no byte", &[], |copy| write(copy.first_mut(), 2))?;
    kept_array(rt, "read an array", &HOIST, |copy| read(copy, b"hoist", -4))?;
    kept_array(
        rt,
        "write its first byte",
        &HOIST,
        |copy| write(copy.first_mut(), 5),
    )?;
    kept_array(
        rt,
        "write its last byte",
        &HOIST,
        |copy| write(copy.last_mut(), -6),
    )
}

fn main(rt: HostRuntime) -> io::Result<()> {
    let hoist = HOIST;
    for (bytes, number) in [
        (&b""[..], -1),
        (b"j", 0),
        (b"ji", 2147483647),
        (b"jib", -2147483648),
        (&hoist, 24),
    ] {
        slice(&rt, bytes, number)?;
    }
    arrays(&rt)?;
    rt.write_all(&hoist)?;
    println!(rt;)
}

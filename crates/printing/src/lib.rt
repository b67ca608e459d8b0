// What programs print beside numbers: whether a buffer is as it was, and checksums.
#![tactic(auto)]

use std::{fmt, io};

// The line of a call that must leave a buffer as it was. The call works on a copy, on the heap: the buffer may have any
// length.
pub fn kept<F: FnOnce(&mut [u8]) -> i32>(
    rt: &(impl Print + AllocGlobal),
    label: impl fmt::Display + Drop,
    buffer: &[u8],
    call: F,
) -> io::Result<()>
    requires { F.IsAlwaysCallable call }
{
    let mut after = buffer.to_vec(rt.alloc())?;
    let number = call(&mut after);
    let state = if buffer == after.as_slice() {
        "untouched"
    } else {
        "changed"
    };
    println!(rt; "{label}: {number}, {state}")
}

// The same of an array, without a heap.
pub fn kept_array<const N: usize, F: FnOnce(&mut [u8]) -> i32>(
    rt: &impl Print,
    label: impl fmt::Display + Drop,
    buffer: &[u8; N],
    call: F,
) -> io::Result<()>
    requires { F.IsAlwaysCallable call }
{
    let mut after = *buffer;
    let number = call(&mut after);
    let state = if *buffer == after {
        "untouched"
    } else {
        "changed"
    };
    println!(rt; "{label}: {number}, {state}")
}

// A buffer that is printed as eight digits. They differ for buffers that differ in one byte or in their length.
#[derive(Clone, Copy)]
pub struct Checksum<'a>(pub &'a [u8]);

impl fmt::Display for Checksum<'_> {
    fn fmt<W: fmt::Write>(&self, f: &mut fmt::Formatter<W>) -> fmt::Result {
        let sum = sum(self.0);
        write!(f, "{sum:08x}")
    }
}

fn sum(bytes: &[u8]) -> u64 {
    let mut sum: u64 = 1;
    for byte in bytes {
        sum = (sum * 257 + u64::from(*byte)) % 4294967291;
    }
    sum
}

// Reads patterns of FLOAT, four bytes each, and writes a line for each with what the proved functions answer:
// tools/float_vectors/generate.py says which field is what.
#![tactic(auto)]

use float::bits::{from_bytes, to_bits};
use float::compare::{equals_whole, is_zero};
use float::print::{Printed, to_printed};
use float::sqrt::sqrt;
use float::whole::{Rounding, to_size, to_whole};
use std::io;
use std::io::Read;

// A line's bytes, its newline the last.
const LINE: usize = 93;

const DIGITS: &[u8; 16] = b"0123456789ABCDEF";

const WHOLES: [i32; 8] = [0, 1, -1, 32767, -32768, 16777217, 2147483647, -2147483648];

// 32 bits in two's complement, and 2^32 for out of range.
fn whole_code(whole: Option<i32>) -> u64 {
    whole.map_or(0x1_0000_0000, |z| u64::from(z.cast_unsigned()))
}

// The kind of a text, one more for a negative number's, and its hundredths.
fn text_code(p: Printed) -> (u8, u64) {
    match p {
        Printed::NotANumber => (0, 0),
        Printed::Infinite(negative) => (1 + u8::from(negative), 0),
        Printed::Overflow(negative) => (3 + u8::from(negative), 0),
        Printed::Hundredths(negative, count) => (5 + u8::from(negative), count),
    }
}

// A bit for each of WHOLES: whether x equals it.
fn mask(x: f32) -> u8 {
    let mut bits = 0;
    for (i, z) in WHOLES.iter().enumerate() {
        bits |= u8::from(equals_whole(x, *z)) << i;
    }
    bits
}

// The last digits of value in hex, as many as field has. By hand: a line by `println!` and its thirteen formats takes
// five times the instructions.
fn put(field: &mut [u8], value: u64) {
    let mut rest = value;
    for k in (0..field.len()).rev() {
        field[k] = DIGITS[(rest % 16) as usize];
        rest /= 16;
    }
}

// The whole numbers that x becomes, each for a type's greatest.
fn put_wholes(line: &mut [u8; LINE], x: f32) {
    put(
        &mut line[9..18],
        whole_code(to_whole(x, Rounding::TowardZero, 127)),
    );
    put(
        &mut line[19..28],
        whole_code(to_whole(x, Rounding::TowardZero, 32767)),
    );
    put(
        &mut line[29..38],
        whole_code(to_whole(x, Rounding::HalfAway, 32767)),
    );
    put(
        &mut line[39..48],
        whole_code(to_whole(x, Rounding::Down, 32767)),
    );
    put(
        &mut line[49..58],
        whole_code(to_whole(x, Rounding::Up, 32767)),
    );
}

// The sizes of a new file on a disc of either length, the text, and the root.
fn put_others(line: &mut [u8; LINE], x: f32) {
    let (kind, hundredths) = text_code(to_printed(x));
    put(&mut line[59..62], u64::from(to_size(x, 863).unwrap_or(0)));
    put(&mut line[63..64], u64::from(kind));
    put(&mut line[64..74], hundredths);
    put(&mut line[75..77], u64::from(mask(x)));
    put(&mut line[78..79], u64::from(is_zero(x)));
    put(&mut line[80..88], u64::from(to_bits(sqrt(x))));
    put(&mut line[89..92], u64::from(to_size(x, 3935).unwrap_or(0)));
}

fn print_line(rt: &impl Print, bytes: [u8; 4]) -> io::Result<()> {
    let [a, b, c, d] = bytes;
    let x = from_bytes(a, b, c, d);
    let mut line = [b' '; LINE];
    put(&mut line[..8], u64::from(u32::from_be_bytes(bytes)));
    put_wholes(&mut line, x);
    put_others(&mut line, x);
    line[LINE - 1] = b'\n';
    rt.write_all(&line)
}

fn main(rt: HostRuntime) -> io::Result<()> {
    let mut bytes = Vec::new(rt.alloc());
    rt.reader().read_to_end(&mut bytes)?;
    let (patterns, _) = bytes.as_slice().as_chunks::<4>();
    for pattern in patterns.iter().take(100000) {
        print_line(&rt, *pattern)?;
    }
    Ok(())
}

// A FLOAT as its bits and as its four bytes.
ghost use Rattle.std.specs.Prelude.{◌≡◌, from_bits, to_bits};
ghost use Rattle.std.specs.Float.{binary32};
ghost use Rattle.float.specs.Bits.{float_bytes, joined};

use std::num::{f32_from_bits_with_nan, f32_to_bits_with_nan};

// Document 01: "A NaN result is stored as hex 7FC00000."
pub fn to_bits(x: f32) -> u32
    ensures { result ≡ to_bits binary32 x }
{
    f32_to_bits_with_nan(x)
}

// A NaN of every NaN's pattern.
pub fn from_bits(n: u32) -> f32
    ensures { result ≡ from_bits binary32 n }
{
    f32_from_bits_with_nan(n)
}

pub fn to_bytes(x: f32) -> [u8; 4]
    ensures { result ≡ float_bytes x }
{
    to_bits(x).to_be_bytes()
}

pub fn from_bytes(a: u8, b: u8, c: u8, d: u8) -> f32
    ensures { result ≡ from_bits binary32 (joined a b c d) }
{
    from_bits(u32::from_be_bytes([a, b, c, d]))
}

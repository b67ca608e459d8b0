// Whole numbers out of a FLOAT.
ghost use Rattle.std.specs.Prelude.{◌≡◌, ◌*◌, ◌^◌, ◌<◌};
ghost use Rattle.float.specs.Whole.{signed, size_of, whole_of, whole_size, within};

use crate::decode::{Decoded, LARGE, UNIT, decode};
use crate::quotient::{divide, nearest};

// Document 01: "TOINT and TOCHAR of a FLOAT cut toward zero; ROUND goes half away from zero." FLOOR goes down, CEIL up.
#[derive(Clone, Copy)]
pub enum Rounding {
    TowardZero,
    HalfAway,
    Down,
    Up,
}

// The size of the whole number for a * 2^k smallest values.
pub fn whole_size(rounding: Rounding, negative: bool, a: u64, k: u64) -> u64
    requires { (a < 2 ^ 32) × (k < 158) }
    ensures { result ≡ whole_size rounding negative (a * 2 ^ k) (2 ^ 149) }
{
    if k >= UNIT {
        return a << (k - UNIT);
    }
    let s = UNIT - k;
    match rounding {
        Rounding::TowardZero => divide(a, s, false),
        Rounding::HalfAway => nearest(a, s),
        Rounding::Down => divide(a, s, negative),
        Rounding::Up => divide(a, s, !negative),
    }
}

fn in_range(negative: bool, size: u64, max: u16) -> Option<i32>
    ensures { result ≡ within max (signed negative size) }
{
    if negative {
        if size <= max as u64 + 1 {
            Some(-(size as i32))
        } else {
            None
        }
    } else {
        if size <= max as u64 {
            Some(size as i32)
        } else {
            None
        }
    }
}

// The whole number that x is rounded to, if it is from -max - 1 to max.
pub fn to_whole(x: f32, rounding: Rounding, max: u16) -> Option<i32>
    ensures { result ≡ whole_of rounding max x }
{
    match decode(x) {
        Decoded::NotANumber => None,
        Decoded::Infinite(_) => None,
        Decoded::Finite(negative, significand, exponent) => {
            if exponent < LARGE {
                in_range(
                    negative,
                    whole_size(rounding, negative, significand, exponent),
                    max,
                )
            } else {
                None
            }
        }
    }
}

// OPEN's size, from 1 to max.
pub fn to_size(x: f32, max: u16) -> Option<u16>
    ensures { result ≡ size_of max x }
{
    let z = to_whole(x, Rounding::TowardZero, max)?;
    if z > 0 { Some(z as u16) } else { None }
}

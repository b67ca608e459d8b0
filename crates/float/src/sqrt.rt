// The square root of a FLOAT, correctly rounded.
ghost use Rattle.std.specs.Prelude.{◌≡◌, ◌*◌, ◌^◌, ◌<◌, ◌≤◌};
ghost use Rattle.float.specs.Sqrt.{CorrectlyRounded, root_of_units, sqrt_of};
ghost use Rattle.float.specs.Scale.{IsScaled};

use crate::bits::from_bits;
use crate::decode::{Decoded, UNIT, decode};

// significand * 2^exponent as radicand * 4^shift, the radicand even, from 2^48 up and below 2^50: its root has 25
// digits, one more than a FLOAT.
#[derive(Clone, Copy)]
pub struct Scaled {
    pub radicand: u64,
    pub shift: u64,
}

fn scale(significand: u64, exponent: u64) -> Scaled
    requires { (0 < significand) × ((significand < 2 ^ 24) × ((149 ≤ exponent) × (exponent < 403))) }
    ensures { IsScaled significand exponent result.radicand result.shift }
{
    let mut radicand = 4 * significand * (1 + exponent % 2);
    let mut shift = exponent / 2 - 1;
    while radicand < 0x1_0000_0000_0000 {
        radicand *= 4;
        shift -= 1;
    }
    Scaled { radicand, shift }
}

// The root of significand * 2^exponent smallest values. Its 25th digit decides the rounding: no even radicand has an
// odd root.
fn positive_root(significand: u64, exponent: u64) -> f32
    requires { (0 < significand) × ((significand < 2 ^ 24) × (exponent < 254)) }
    ensures { result ≡ root_of_units (significand * 2 ^ exponent) }
{
    let scaled = scale(significand, exponent + UNIT);
    let radicand = scaled.radicand;
    let shift = scaled.shift;
    let rounded = (root::whole_root(radicand) + 1) / 2;
    from_bits(((shift + 1) * 0x80_0000 + rounded) as u32)
}

pub fn sqrt(x: f32) -> f32
    ensures { result ≡ sqrt_of x }
{
    match decode(x) {
        Decoded::NotANumber => x,
        Decoded::Infinite(negative) => if negative { f32::NAN } else { x },
        Decoded::Finite(negative, significand, exponent) => {
            if significand == 0 {
                return x;
            }
            if negative {
                f32::NAN
            } else {
                positive_root(significand, exponent)
            }
        }
    }
}

// No code: the law that no binary32 value is as near to the root, for the check to name.
pub fn correctly_rounded()
    ensures { CorrectlyRounded }
{}

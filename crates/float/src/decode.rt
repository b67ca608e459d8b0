// A FLOAT taken apart.
ghost use Rattle.float.specs.Decode.{IsDecoded};

use crate::bits::to_bits;

// 2^149 smallest values make 1.
pub const UNIT: u64 = 149;
// From this exponent on, the size of a value is above 4294967040.
pub const LARGE: u64 = 158;

// A finite value is significand * 2^exponent times 2^-149, the smallest value; the first field says whether it has the
// minus sign. A NaN has none, an infinity has no size: three cases, no Option.
#[derive(Clone, Copy)]
pub enum Decoded {
    NotANumber,
    Infinite(bool),
    Finite(bool, u64, u64),
}

pub fn decode(x: f32) -> Decoded
    ensures { IsDecoded x result }
{
    let n = to_bits(x);
    let negative = n >= 0x8000_0000;
    let field = n % 0x8000_0000 / 0x80_0000;
    let fraction = n % 0x80_0000;
    if field == 255 {
        if fraction == 0 {
            Decoded::Infinite(negative)
        } else {
            Decoded::NotANumber
        }
    } else {
        if field == 0 {
            Decoded::Finite(negative, fraction as u64, 0)
        } else {
            Decoded::Finite(negative, (fraction + 0x80_0000) as u64, (field - 1) as u64)
        }
    }
}

// What PRINT shows of a FLOAT.
ghost use Rattle.std.specs.Prelude.{◌≡◌};
ghost use Rattle.float.specs.Print.{printed_of};

use crate::decode::{Decoded, LARGE, decode};
use crate::whole::{Rounding, whole_size};

// The first field says whether '-' stands in front. All four are shown, so none of them is an error or a None.
#[derive(Clone, Copy)]
pub enum Printed {
    NotANumber,
    Infinite(bool),
    Overflow(bool),
    Hundredths(bool, u64),
}

pub fn to_printed(x: f32) -> Printed
    ensures { result ≡ printed_of x }
{
    match decode(x) {
        Decoded::NotANumber => Printed::NotANumber,
        Decoded::Infinite(negative) => Printed::Infinite(negative),
        Decoded::Finite(negative, significand, exponent) => {
            if exponent < LARGE {
                let hundredths = whole_size(
                    Rounding::HalfAway,
                    negative,
                    100 * significand,
                    exponent,
                );
                Printed::Hundredths(negative && significand != 0, hundredths)
            } else {
                Printed::Overflow(negative)
            }
        }
    }
}

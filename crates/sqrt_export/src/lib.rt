// The root of a FLOAT by its bits, for C to call: tools/sqrt compares it with C's sqrtf on every pattern.
#![tactic(auto)]

ghost use Rattle.std.specs.Prelude.{◌≡◌};
ghost use Rattle.std.specs.Float.{binary32};
ghost use Rattle.std.specs.Float.Ieee.{of_bits, to_bits};
ghost use Rattle.float.specs.Sqrt.{sqrt_of};

use float::bits::{from_bits, to_bits};
use float::sqrt::sqrt;

#[unsafe(no_mangle)]
pub extern "C" fn float_sqrt_bits(n: u32) -> u32
    ensures { result ≡ to_bits binary32 (sqrt_of (of_bits binary32 n)) }
{
    to_bits(sqrt(from_bits(n)))
}

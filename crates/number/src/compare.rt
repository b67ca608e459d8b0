// A number against a whole number, exactly.
ghost use Rattle.std.specs.Prelude.{◌≡◌};
ghost use Rattle.float.specs.Whole.{within, sized};
ghost use Rattle.number.specs.Compare.{equals, size_within};

use crate::Number;
use float::whole::to_size;

// Document 01: "WAITUNTILDONE stays while a live process has that ID."
pub fn equals_whole(a: Number, z: i32) -> bool
    ensures { result ≡ equals a z }
{
    match a {
        Number::Char(x) => x as i32 == z,
        Number::Int(x) => x as i32 == z,
        Number::Float(x) => float::compare::equals_whole(x, z),
    }
}

fn whole_size(z: i32, max: u16) -> Option<u16>
    ensures { result ≡ sized (within max z) }
{
    if z < 1 {
        return None;
    }
    if z <= max as i32 {
        Some(z as u16)
    } else {
        None
    }
}

// Document 01: "size (cut toward zero; NaN and infinities count as refused sizes)". OPEN's sizes are from 1 to `max`.
pub fn size_within(a: Number, max: u16) -> Option<u16>
    ensures { result ≡ size_within max a }
{
    match a {
        Number::Char(x) => whole_size(x as i32, max),
        Number::Int(x) => whole_size(x as i32, max),
        Number::Float(x) => to_size(x, max),
    }
}

// A number against the clock.
ghost use Rattle.std.specs.Prelude.{◌≡◌};
ghost use Rattle.number.specs.Clock.{ahead_by, whole_is_ahead, is_ahead};

use crate::Number;
use integer::Whole;

// Document 02, Q-4: "1 to 32,767"
const MAX_AHEAD: u16 = 32767;

// Document 02, Q-4: "x minus the clock, modulo 65,536"
fn ahead_by(x: i16, clock: u32) -> u16
    ensures { result ≡ ahead_by x clock }
{
    let reading = (clock % 65536) as u16;
    x.bits().wrapping_sub(reading)
}

fn whole_is_ahead(x: i16, clock: u32) -> bool
    ensures { result ≡ whole_is_ahead x clock }
{
    let distance = ahead_by(x, clock);
    (1 <= distance) & (distance <= MAX_AHEAD)
}

// Document 02, Q-4: "CHAR is widened first. FLOAT becomes fault 6.": no pop lets a FLOAT come here.
pub fn is_ahead(a: Number, clock: u32) -> bool
    ensures { result ≡ is_ahead a clock }
{
    match a {
        Number::Char(x) => whole_is_ahead(x as i16, clock),
        Number::Int(x) => whole_is_ahead(x, clock),
        Number::Float(_) => false,
    }
}

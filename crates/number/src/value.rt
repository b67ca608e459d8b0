// A number as the bytes and the type byte under which it lies on the stack.
ghost use Rattle.std.specs.Prelude.{◌≡◌, ◌≤◌, [], ◌∷◌, take};
ghost use Rattle.number.specs.Value.{encoded, number_of, is_zero};

use crate::Number;
use integer::Whole;

// The first `kind` bytes are the value's, the others 0: the type byte is also the number of bytes. The fields are open,
// for the checksum of the number vectors goes over all four bytes.
#[derive(Clone, Copy)]
pub struct Encoded {
    pub bytes: [u8; 4],
    pub kind: u8,
}

impl Encoded {
    // The value's own bytes.
    pub fn as_slice(&self) -> &[u8]
        requires { self.now.kind ≤ 4 }
        ensures { result.now ≡ take self.now.kind self.now.bytes }
    {
        &self.bytes[..self.kind as usize]
    }
}

#[tactic(auto, unfolding(crate::specs::Value::encoded))]
pub fn encode(a: Number) -> Encoded
    ensures { result ≡ encoded a }
{
    match a {
        Number::Char(x) => Encoded {
            bytes: [x.bits(), 0, 0, 0],
            kind: 1,
        },
        Number::Int(x) => Encoded {
            bytes: [integer::high_byte(x), integer::low_byte(x), 0, 0],
            kind: 2,
        },
        Number::Float(x) => Encoded {
            bytes: float::bits::to_bytes(x),
            kind: 4,
        },
    }
}

// The number of the type `kind` whose bytes these are; a CHAR has only the first, an INT the first two.
// The kind is the byte that lies above the value on the stack, no enum: the promise is for every byte.
#[tactic(auto, unfolding(crate::specs::Value::number_of))]
pub fn decode(kind: u8, a: u8, b: u8, c: u8, d: u8) -> Number
    ensures { result ≡ number_of kind (a ∷ b ∷ c ∷ d ∷ []) }
{
    if kind == 1 {
        Number::Char(i8::from_bits(a))
    } else if kind == 2 {
        Number::Int(integer::from_bytes(a, b))
    } else {
        Number::Float(float::bits::from_bytes(a, b, c, d))
    }
}

// Document 01: "NaN counts as not zero, −0 as zero."
pub fn is_zero(a: Number) -> bool
    ensures { result ≡ is_zero a }
{
    match a {
        Number::Char(x) => x == 0,
        Number::Int(x) => x == 0,
        Number::Float(x) => float::compare::is_zero(x),
    }
}

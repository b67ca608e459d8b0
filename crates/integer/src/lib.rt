// Whole numbers of 8 and 16 bits: their bits and bytes, the operations whose exact result is kept modulo 256 or 65,536,
// and division that cuts toward zero.
#![tactic(auto)]

ghost use Rattle.std.specs.Prelude.{◌≡◌, ◌≢◌, ℕ, ◌+◌, ◌*◌, ◌/◌, ◌%◌, ℤ, pos, ◌+ℤ◌, ◌-ℤ◌, ◌*ℤ◌, neg_ℤ};
ghost use Rattle.std.specs.Prelude.{int_div, int_rem, FitsSigned};
ghost use Rattle.std.specs.Bool.{Decides};
ghost use Rattle.std.specs.Int.Bits.{bit_and, bit_or, bit_xor};
ghost use Rattle.std.specs.Int.{Width, w8, w16};
ghost use Rattle.std.proofs.Common.{to_z, of_z};
ghost use mir.Facts.{sfits_lit};
ghost use Rattle.integer.specs.Modular.{wrapped};

// A whole number of `width` bits: i8 is CHAR's, i16 is INT's. Each contract gives the definition of specs/Modular.antt,
// or the library's, at that width.
pub trait Whole: Copy {
    type Bits;

    // The greatest number.
    const MAX: u16;

    ghost MAX: { ℕ };

    ghost width: { Width };

    ghost value: { Self → ℤ };

    ghost natural: { Self.Bits → ℕ };

    // The number whose two's complement is `bits`: the top bit counts −128 or −32,768, the others as they stand.
    // Document 02, Q-5: the sign comes by arithmetic alone, here, in `bits` and in the three functions below.
    fn from_bits(bits: Self::Bits) -> Self
        ensures { value result ≡ to_z width (natural bits) };

    // The two's complement: the number modulo 256 or 65,536, after a sum that is never negative.
    fn bits(self) -> Self::Bits
        ensures { natural result ≡ of_z width (value self) };

    fn exact(self) -> i64
        ensures value { result ≡ value self }
        ensures bound { FitsSigned width result };

    final fn is_zero(self) -> bool
        ensures { Decides result (value self ≡ pos 0) }
    {
        self.exact() == 0
    }

    // The three bitwise operators, on the two's complement.
    fn and(self, other: Self) -> Self
        ensures { value result ≡ to_z width (bit_and (of_z width (value self)) (of_z width (value other))) };

    fn or(self, other: Self) -> Self
        ensures { value result ≡ to_z width (bit_or (of_z width (value self)) (of_z width (value other))) };

    fn xor(self, other: Self) -> Self
        ensures { value result ≡ to_z width (bit_xor (of_z width (value self)) (of_z width (value other))) };

    // Document 01: "the exact whole result is kept modulo 65,536, or 256 for CHAR".
    fn add(self, other: Self) -> Self
        ensures { value result ≡ wrapped width (value self +ℤ value other) };

    fn subtract(self, other: Self) -> Self
        ensures { value result ≡ wrapped width (value self -ℤ value other) };

    fn multiply(self, other: Self) -> Self
        ensures { value result ≡ wrapped width (value self *ℤ value other) };

    // The least number has no negative of its width: modulo the width it is its own.
    fn negate(self) -> Self
        ensures { value result ≡ wrapped width (neg_ℤ (value self)) };

    // Document 01: "DIVIDEDBY on whole numbers cuts toward zero".
    fn quotient(self, divisor: Self) -> Self
        requires { value divisor ≢ pos 0 }
        ensures { value result ≡ wrapped width (int_div (value self) (value divisor)) };

    // Document 01: "MODULUS has the dividend's sign".
    fn remainder(self, divisor: Self) -> Self
        requires { value divisor ≢ pos 0 }
        ensures { value result ≡ wrapped width (int_rem (value self) (value divisor)) };

    // An exact result of up to 64 bits, kept modulo 256 or 65,536: its remainder lies above −256 or −65,536.
    fn reduce(z: i64) -> Self
        ensures { value result ≡ wrapped width z };

    ghost max_fits: { FitsSigned width (pos MAX) };
}

impl Whole for i8 {
    type Bits = u8;

    const MAX: u16 = 127;

    ghost MAX = { 127 };

    ghost width = { w8 };

    ghost value = { λ x. x };

    ghost natural = { λ n. n };

    fn from_bits(bits: u8) -> i8 {
        (bits % 128) as i8 + -128 * ((bits / 128) as i8)
    }

    fn bits(self) -> u8 {
        ((self as i16 + 256) as u16 % 256) as u8
    }

    fn exact(self) -> i64 {
        self as i64
    }

    fn and(self, other: i8) -> i8 {
        self & other
    }

    fn or(self, other: i8) -> i8 {
        self | other
    }

    fn xor(self, other: i8) -> i8 {
        self ^ other
    }

    fn add(self, other: i8) -> i8 {
        self.wrapping_add(other)
    }

    fn subtract(self, other: i8) -> i8 {
        self.wrapping_sub(other)
    }

    fn multiply(self, other: i8) -> i8 {
        self.wrapping_mul(other)
    }

    fn negate(self) -> i8 {
        self.wrapping_neg()
    }

    fn quotient(self, divisor: i8) -> i8 {
        self.wrapping_div(divisor)
    }

    fn remainder(self, divisor: i8) -> i8 {
        self.wrapping_rem(divisor)
    }

    fn reduce(z: i64) -> i8 {
        i8::from_bits(((z % 256 + 256) as u64 % 256) as u8)
    }

    ghost max_fits = { sfits_lit tt };
}

impl Whole for i16 {
    type Bits = u16;

    const MAX: u16 = 32767;

    ghost MAX = { 32767 };

    ghost width = { w16 };

    ghost value = { λ x. x };

    ghost natural = { λ n. n };

    fn from_bits(bits: u16) -> i16 {
        (bits % 32768) as i16 + -32768 * ((bits / 32768) as i16)
    }

    fn bits(self) -> u16 {
        ((self as i32 + 65536) as u32 % 65536) as u16
    }

    fn exact(self) -> i64 {
        self as i64
    }

    fn and(self, other: i16) -> i16 {
        self & other
    }

    fn or(self, other: i16) -> i16 {
        self | other
    }

    fn xor(self, other: i16) -> i16 {
        self ^ other
    }

    fn add(self, other: i16) -> i16 {
        self.wrapping_add(other)
    }

    fn subtract(self, other: i16) -> i16 {
        self.wrapping_sub(other)
    }

    fn multiply(self, other: i16) -> i16 {
        self.wrapping_mul(other)
    }

    fn negate(self) -> i16 {
        self.wrapping_neg()
    }

    fn quotient(self, divisor: i16) -> i16 {
        self.wrapping_div(divisor)
    }

    fn remainder(self, divisor: i16) -> i16 {
        self.wrapping_rem(divisor)
    }

    fn reduce(z: i64) -> i16 {
        i16::from_bits(((z % 65536 + 65536) as u64 % 65536) as u16)
    }

    ghost max_fits = { sfits_lit tt };
}

// Document 01: "A value lies as its bytes, high byte first".
pub fn from_bytes(high: u8, low: u8) -> i16
    ensures { result ≡ to_z w16 (high * 256 + low) }
{
    i16::from_bits((high as u16) * 256 + (low as u16))
}

pub fn high_byte(x: i16) -> u8
    ensures { result ≡ of_z w16 x / 256 }
{
    (x.bits() / 256) as u8
}

pub fn low_byte(x: i16) -> u8
    ensures { result ≡ of_z w16 x % 256 }
{
    (x.bits() % 256) as u8
}

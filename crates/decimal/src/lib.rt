// The decimal digits of a number, as every printed number has them.
#![tactic(auto)]

ghost use Rattle.std.specs.Prelude.{◌≡◌, ◌+◌, ◌<◌, ◌≤◌, length};
ghost use Rattle.buffer.specs.Laid.{Laid};
ghost use Rattle.decimal.specs.Decimal.{decimal};

use std::marker::Model;

pub const MAX_DIGITS: usize = 10;

const LAST_DIGIT: usize = MAX_DIGITS - 1;

// A number's digits, seen as their list. They stand at the end of bytes, from start on, with zeros before them, so the
// list alone gives the fields back, and a copy is the same value.
#[derive(Clone, Copy)]
pub struct Digits {
    bytes: [u8; MAX_DIGITS],
    start: usize,
}

impl Model for Digits {
    ghost use Rattle.std.specs.Prelude.{List, ℕ, ◌≡◌, ◌<◌, ◌-◌, ◌++◌, drop, length, replicate, take};
    ghost use Rattle.std.proofs.Common.{arith, ap, sym, ◌∙◌, length-drop, take-append-drop};
    ghost use Rattle.decimal.specs.Decimal.{max_digits};

    ghost Value = { List ℕ };

    ghost view = { λ d. drop d.start d.bytes };

    ghost invariant = { λ d.
        (d.start < max_digits) × (length d.bytes ≡ max_digits) × (take d.start d.bytes ≡ replicate d.start 0) };

    ghost inverse = { λ l. record { bytes = replicate (max_digits - length l) 0 ++ l; start = max_digits - length l } };

    ghost inverse_ok = { λ d h.
        let digits = drop d.start d.bytes in
        let start : max_digits - length digits ≡ d.start = omega (arith, h.0, h.1, length-drop d.start d.bytes) in
        λ i. record {
          bytes = (
              ap (λ n. replicate n 0 ++ digits) start ∙ ap (λ l. l ++ digits) (sym h.2)
              ∙ take-append-drop d.start d.bytes
              ) i;
          start = start i;
        } };
}

impl Digits {
    pub fn as_slice(&self) -> &[u8]
        ensures { result.now ≡ self.now }
    {
        &self.bytes[self.start..]
    }
}

// One digit. `char::from_digit` of the library answers a char, and an Option.
fn digit(n: u32) -> u8
    requires { n < 10 }
    ensures { result ≡ 48 + n }
{
    b'0' + n as u8
}

// By hand: to print into lent bytes `write!` asks for a writer round them, and answers a Result that cannot fail.
pub fn digits_of(n: u32) -> Digits
    ensures { result ≡ decimal n }
{
    let mut bytes = [0u8; MAX_DIGITS];
    let mut start: usize = LAST_DIGIT;
    let mut rest = n;
    bytes[start] = digit(rest % 10);
    while 10 <= rest {
        rest /= 10;
        start -= 1;
        bytes[start] = digit(rest % 10);
    }
    Digits { bytes, start }
}

pub fn decimal_length(n: u32) -> usize
    ensures { result ≡ length (decimal n) }
{
    digits_of(n).as_slice().len()
}

// Lays the digits over out from place at, and answers the place behind them.
pub fn put_decimal(out: &mut [u8], at: usize, n: u32) -> usize
    requires { at + length (decimal n) ≤ length out.old }
    ensures { Laid out.old at (decimal n) out.new result }
{
    buffer::bytes::put_bytes(out, at, digits_of(n).as_slice())
}

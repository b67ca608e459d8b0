// What PRINT writes of a number.
ghost use Rattle.std.specs.Prelude.{◌≡◌, ◌+◌, ◌/◌, ◌<◌, ◌≤◌, ◌++◌, length};
ghost use Rattle.decimal.specs.Decimal.{decimal};
ghost use Rattle.float.specs.Print.{printed_of};
ghost use Rattle.number.specs.Text.{sign, decimals, whole_text, printed_text, text_of};

use crate::Number;
use buffer::bytes::overwrite_at;
use float::print::{Printed, to_printed};
use integer::Whole;
use std::marker::Model;

// A number's text, seen as its list. It stands at the front of bytes, len long, with zeros behind it, so the list alone
// gives the fields back, and a copy is the same value.
#[derive(Clone, Copy)]
pub struct Text {
    bytes: [u8; 16],
    len: usize,
}

impl Model for Text {
    ghost use Rattle.std.specs.Prelude.{List, ℕ, ◌≡◌, ◌≤◌, ◌++◌, drop, length, take};
    ghost use Rattle.std.proofs.Common.{arith, ap, sym, ◌∙◌, length-take-le, take-append-drop};
    ghost use Rattle.number.specs.Text.{zeros};

    ghost Value = { List ℕ };

    ghost view = { λ t. take t.len t.bytes };

    ghost invariant = { λ t. (t.len ≤ 16) × (length t.bytes ≡ 16) × (drop t.len t.bytes ≡ drop t.len zeros) };

    ghost inverse = { λ l. record { bytes = l ++ drop (length l) zeros; len = length l } };

    ghost inverse_ok = { λ t h.
        let text = take t.len t.bytes in
        let len : length text ≡ t.len = length-take-le t.len t.bytes (omega (arith, h.0, h.1)) in
        λ i. record {
          bytes = (
              ap (λ n. text ++ drop n zeros) len ∙ ap (λ l. text ++ l) (sym h.2) ∙ take-append-drop t.len t.bytes
              ) i;
          len = len i;
        } };
}

impl Text {
    pub fn as_slice(&self) -> &[u8]
        ensures { result.now ≡ self.now }
    {
        &self.bytes[..self.len]
    }
}

fn join(head: &[u8], body: &[u8], tail: &[u8]) -> Text
    requires { length head.now + length body.now + length tail.now ≤ 16 }
    ensures { result ≡ head.now ++ (body.now ++ tail.now) }
{
    let mut bytes = [0u8; 16];
    overwrite_at(&mut bytes, 0, head);
    overwrite_at(&mut bytes, head.len(), body);
    overwrite_at(&mut bytes, head.len() + body.len(), tail);
    Text {
        bytes,
        len: head.len() + body.len() + tail.len(),
    }
}

fn signed(negative: bool, body: &[u8], tail: &[u8]) -> Text
    requires { length body.now + length tail.now < 16 }
    ensures { result ≡ sign negative ++ (body.now ++ tail.now) }
{
    if negative {
        join(b"-", body, tail)
    } else {
        join(b"", body, tail)
    }
}

fn signed_decimal(negative: bool, n: u32, tail: &[u8]) -> Text
    requires { length tail.now < 6 }
    ensures { result ≡ sign negative ++ (decimal n ++ tail.now) }
{
    signed(negative, decimal::digits_of(n).as_slice(), tail)
}

fn int_text(x: i16) -> Text
    ensures { result ≡ whole_text x }
{
    signed_decimal(x < 0, x.unsigned_abs() as u32, b"")
}

fn decimals_of(hundredths: u64) -> [u8; 3]
    ensures { result ≡ decimals hundredths }
{
    [
        b'.',
        (48 + hundredths / 10 % 10) as u8,
        (48 + hundredths % 10) as u8,
    ]
}

fn hundredths_text(negative: bool, hundredths: u64) -> Text
    requires { hundredths / 100 < 4294967296 }
    ensures { result ≡ printed_text (Printed.Hundredths negative hundredths) }
{
    let tail = decimals_of(hundredths);
    signed_decimal(negative, (hundredths / 100) as u32, &tail)
}

fn float_text(x: f32) -> Text
    ensures { result ≡ printed_text (printed_of x) }
{
    match to_printed(x) {
        Printed::NotANumber => signed(false, b"nan", b""),
        Printed::Infinite(negative) => signed(negative, b"inf", b""),
        Printed::Overflow(negative) => signed(negative, b"ovf", b""),
        Printed::Hundredths(negative, hundredths) => hundredths_text(negative, hundredths),
    }
}

#[tactic(auto, unfolding(crate::specs::Text::text_of))]
pub fn write(a: Number) -> Text
    ensures { result ≡ text_of a }
{
    match a {
        Number::Char(x) => {
            let byte = [x.bits()];
            signed(false, &byte, b"")
        }
        Number::Int(x) => int_text(x),
        Number::Float(x) => float_text(x),
    }
}

// What lies on top of a stack: the slice is the bytes below SP.
ghost use Rattle.std.specs.Prelude.{true, ◌≡◌, ◌≤◌, length, slice_index, take};
ghost use Rattle.machine.specs.Stack.{pop, pop_number, pop_string};
ghost use Rattle.number.specs.Value.{number_of};
ghost use Rattle.number.specs.declared.Number.{Number};
ghost use Rattle.stack.specs.Tops.{bytes_below, is_numeric, next_numbered, number_above, number_on};
ghost use Rattle.stack.specs.Tops.{numbered, value_end, value_on};

use crate::{STRING_KIND, TopNumber, TopValue};
use disc::name::text_length;
use machine::fault::Fault;
use number::Number;
use operator::instruction::{Types, takes};

#[tactic(auto, unfolding(machine::specs::Stack::pop_string))]
fn string_on_top(stack: &[u8]) -> Result<TopValue, Fault>
    ensures { (value_on stack.now result
        ≡ pop_string stack.now (length stack.now))
        × (value_end result ≤ length stack.now) }
{
    let n = stack.len();
    if n < 2 {
        return Err(Fault::NothingThere);
    }
    let len = usize::from(stack[n - 2]);
    if n < len + 2 {
        return Err(Fault::NothingThere);
    }
    let end = n - 2;
    let at = end - len;
    if text_length(&stack[at..end]) + 1 != len {
        return Err(Fault::WrongType);
    }
    Ok(TopValue {
        kind: STRING_KIND,
        at,
        len,
    })
}

#[tactic(auto, unfolding(machine::specs::Stack::pop_number))]
fn number_on_top(stack: &[u8], kind: u8) -> Result<TopValue, Fault>
    ensures { (value_on stack.now result
        ≡ pop_number stack.now (length stack.now) kind)
        × (value_end result ≤ length stack.now) }
{
    let n = stack.len();
    let len = usize::from(kind);
    if n < len + 1 {
        return Err(Fault::NothingThere);
    }
    Ok(TopValue {
        kind,
        at: n - 1 - len,
        len,
    })
}

// Document 01: "popping from the top, for each value 5 nothing there, 6 a type not taken here, 5 too few bytes below
// it, 6 malformed string"
// Inlined: what a call hands back here is written in parts and read as a whole, for which a processor waits.
#[inline(always)]
#[tactic(auto, unfolding(machine::specs::Stack::pop))]
pub fn top_value(stack: &[u8], types: Types) -> Result<TopValue, Fault>
    ensures { (value_on stack.now result ≡ pop types stack.now)
        × (value_end result ≤ length stack.now) }
{
    let n = stack.len();
    if n < 1 {
        return Err(Fault::NothingThere);
    }
    let kind = stack[n - 1];
    if !takes(types, kind) {
        return Err(Fault::WrongType);
    }
    if kind == STRING_KIND {
        return string_on_top(stack);
    }
    number_on_top(stack, kind)
}

// The number of these bytes, which may be fewer than four: read one by one, since a copy of so few costs more. By a
// test, and not by `get`, which hands out a reference in an Option (tools/ports/lint.py).
#[tactic(auto, unfolding(number::specs::Value::number_of))]
pub fn number_of(kind: u8, bytes: &[u8]) -> Number
    requires { length bytes.now ≤ 4 }
    ensures { result ≡ number_of kind bytes.now }
{
    let byte_at = |i: usize| -> u8
        ensures { result ≡ slice_index bytes.entry.now i }
    { if i < bytes.len() { bytes[i] } else { 0 } };
    number::value::decode(kind, byte_at(0), byte_at(1), byte_at(2), byte_at(3))
}

pub fn top_number(stack: &[u8], types: Types) -> Result<TopNumber, Fault>
    requires { is_numeric types ≡ true }
    ensures { (number_on stack.now result ≡ numbered (pop types stack.now))
        × (bytes_below result ≤ length stack.now) }
{
    let top = top_value(stack, types)?;
    let end = top.at + top.len;
    Ok(TopNumber {
        number: number_of(top.kind, &stack[top.at..end]),
        below: top.at,
    })
}

// The number below one that was popped before it, which left so many bytes: whatever number that was.
pub fn number_below(stack: &[u8], above: usize, types: Types) -> Result<TopNumber, Fault>
    requires { (is_numeric types ≡ true) × (above ≤ length stack.now) }
    ensures found { (number_on stack.now result ≡ numbered (pop types (take above stack.now)))
        × (bytes_below result ≤ length stack.now) }
    ensures next { (x : Number) → number_on stack.now result
        ≡ next_numbered types (number_above x (take above stack.now)) }
{
    top_number(&stack[..above], types)
}

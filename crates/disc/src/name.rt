// File names: as they are given, and as the directory holds them. Bytes are gone through by their places: the library's
// iterators of slices hand out references in an Option, which lie otherwise where pointers are shorter
// (tools/ports/lint.py).
ghost use Rattle.std.specs.Prelude.{◌≡◌, ◌+◌, ◌≤◌, length, take};
ghost use Rattle.buffer.specs.Laid.{Laid};
ghost use Rattle.disc.specs.Layout.{name_size};
ghost use Rattle.disc.specs.Name.{good_name, is_name_byte, padded, trimmed};

use crate::layout::{MAX_NAME, NAME_SIZE};

fn is_name_byte(b: u8) -> bool
    ensures { result ≡ is_name_byte b }
{
    (33..=126).contains(&b)
}

pub fn is_good_name(name: &[u8]) -> bool
    ensures { result ≡ good_name name.now }
{
    (1..=MAX_NAME).contains(&name.len()) && (0..name.len()).all(|i| is_name_byte(name[i]))
}

// Document 01: "zero-filled".
pub fn pad(name: &[u8]) -> [u8; NAME_SIZE]
    requires { length name.now ≤ name_size }
    ensures { result ≡ padded name.now }
{
    let mut field = [0u8; NAME_SIZE];
    buffer::bytes::overwrite_at(&mut field, 0, name);
    field
}

// How many bytes stand before the first zero.
pub fn text_length(bytes: &[u8]) -> usize
    ensures { (result ≤ length bytes.now)
        × (take result bytes.now ≡ trimmed bytes.now) }
{
    (0..bytes.len())
        .find(|i| bytes[*i] == 0)
        .unwrap_or(bytes.len())
}

// Lays the bytes of field before its first zero over out from place at, and answers the place behind them.
pub fn put_name(out: &mut [u8], at: usize, field: &[u8]) -> usize
    requires { at + length (trimmed field.now) ≤ length out.old }
    ensures { Laid out.old at (trimmed field.now) out.new result }
{
    let n = text_length(field);
    buffer::bytes::put_bytes(out, at, &field[..n])
}

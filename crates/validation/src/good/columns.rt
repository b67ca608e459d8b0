// The variable table by columns of 16 bits, which the compiled code compares eight at a time.
ghost use Rattle.std.specs.Prelude.{◌≡◌, ◌+◌, ◌<◌, ◌≤◌, length};
ghost use Rattle.buffer.specs.Buffer.{overwrite};
ghost use Rattle.buffer.specs.Lists.{tab};
ghost use Rattle.machine.specs.Limits.{area_length};
ghost use Rattle.variable.specs.Limits.{entry_size, max_variables};
ghost use Rattle.validation.specs.Columns.{bytes_of, ends_of, places, words_of};

use buffer::bytes::word_at;
use std::array;
use variable::{ENTRIES_AT, ENTRY_SIZE};

// Every two of 25 by their distance: the first stands below 24, the second up to 24 behind it.
pub const FIRSTS: u32 = 24;

// As many as one step of the compiled code compares.
pub const FEW: u32 = 8;

pub const PLACES: usize = 48;

// Where the fields of an entry begin.
pub const NAME_AT: usize = 0;

pub const KIND_AT: usize = 1;

pub const ADDRESS_AT: usize = 2;

pub const SIZE_AT: usize = 3;

pub const OWNER_AT: usize = 4;

pub fn wide(b: u8) -> u16
    ensures { (result ≡ b) × (result < 256) }
{
    b as u16
}

pub fn fill_bytes(column: &mut [u16; PLACES], area: &[u8], field: usize, count: usize)
    requires column_len { (length column.old ≡ places) × (length area.now ≡ area_length) }
    requires field_lt_entry_size { (field < entry_size) × (count ≤ max_variables) }
    ensures { column.new
        ≡ overwrite column.old 0 (bytes_of area.now field count) }
{
    for i in 0..count {
        column[i] = wide(area[ENTRIES_AT + i * ENTRY_SIZE + field]);
    }
}

pub fn fill_words(column: &mut [u16; PLACES], area: &[u8], field: usize, count: usize)
    requires column_len { (length column.old ≡ places) × (length area.now ≡ area_length) }
    requires field_bound { (field + 1 < entry_size) × (count ≤ max_variables) }
    ensures { column.new
        ≡ overwrite column.old 0 (words_of area.now field count) }
{
    for i in 0..count {
        column[i] = word_at(area, ENTRIES_AT + i * ENTRY_SIZE + field);
    }
}

pub fn fill_ends(column: &mut [u16; PLACES], area: &[u8], count: usize)
    requires { (length column.old ≡ places) × (length area.now ≡ area_length) × (count ≤ max_variables) }
    ensures { column.new ≡ overwrite column.old 0 (ends_of area.now count) }
{
    for i in 0..count {
        let at = ENTRIES_AT + i * ENTRY_SIZE;
        column[i] = wide(area[at + ADDRESS_AT]) + wide(area[at + SIZE_AT]);
    }
}

// For places behind the last variable: numbers that are no byte, each another.
pub fn no_names() -> [u16; PLACES]
    ensures { result ≡ tab (λ i. 256 + i) places }
{
    array::from_fn(|i| 256 + i as u16)
}

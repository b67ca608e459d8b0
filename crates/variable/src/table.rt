// The table: its entries and their count, and the lookup.
ghost use Rattle.std.specs.Prelude.{◌≡◌, ◌<◌, ◌≤◌, get_or, length};
ghost use Rattle.variable.specs.Bytes.{variable_bytes, variables_bytes, variables_of, with_count, with_entry};
ghost use Rattle.variable.specs.Limits.{max_variables, variables_size};
ghost use Rattle.variable.specs.Table.{find, is_of, no_variable};

use crate::{COUNT_AT, ENTRIES_AT, ENTRY_SIZE, Variable};

pub fn count_of(variables: &[u8]) -> usize
    requires { length variables.now ≡ variables_size }
    ensures { result ≡ (variables_of variables.now).count }
{
    variables[COUNT_AT] as usize
}

pub fn put_count(variables: &mut [u8], count: u8)
    requires { length variables.old ≡ variables_size }
    ensures { variables.new ≡ variables_bytes (with_count (variables_of variables.old) count) }
{
    let bytes = [count];
    buffer::bytes::overwrite_at(variables, COUNT_AT, &bytes);
}

// Document 01: "25 variable entries of name 1, type 1, address 1, size 1, process ID 2."
pub fn entry_at(variables: &[u8], i: usize) -> Variable
    requires { (length variables.now ≡ variables_size) × (i < max_variables) }
    ensures { result ≡ get_or (variables_of variables.now).entries i no_variable }
{
    let at = ENTRIES_AT + i * ENTRY_SIZE;
    let end = at + ENTRY_SIZE;
    let bytes = &variables[at..end];
    Variable {
        name: bytes[0],
        kind: bytes[1],
        address: bytes[2],
        size: bytes[3],
        owner: buffer::bytes::word_at(bytes, 4),
    }
}

fn entry_bytes(e: Variable) -> [u8; ENTRY_SIZE]
    ensures { result ≡ variable_bytes e }
{
    [
        e.name,
        e.kind,
        e.address,
        e.size,
        buffer::bytes::low(e.owner),
        buffer::bytes::high(e.owner),
    ]
}

// One entry's six bytes and no other.
pub fn put_entry(variables: &mut [u8], i: usize, e: Variable)
    requires { (length variables.old ≡ variables_size) × (i < max_variables) }
    ensures { variables.new ≡ variables_bytes (with_entry (variables_of variables.old) i e) }
{
    let bytes = entry_bytes(e);
    buffer::bytes::overwrite_at(variables, ENTRIES_AT + i * ENTRY_SIZE, &bytes);
}

pub fn is_of(e: Variable, name: u8, owner: u16) -> bool
    ensures { result ≡ is_of name owner e }
{
    e.name == name && e.owner == owner
}

// The place of the variable of that name and process.
pub fn find_variable(variables: &[u8], name: u8, owner: u16) -> Option<usize>
    requires { (length variables.now ≡ variables_size)
        × ((variables_of variables.now).count ≤ max_variables) }
    ensures { result ≡ find (variables_of variables.now) name owner }
{
    (0..count_of(variables)).find(|i| is_of(entry_at(variables, *i), name, owner))
}

// The variables, tested on their entries' bytes.
ghost use Rattle.std.specs.Prelude.{◌≡◌, ◌+◌, ◌<◌, ◌≤◌, eqb, leb, length, replicate, take};
ghost use Rattle.buffer.specs.Buffer.{overwrite};
ghost use Rattle.buffer.specs.Lists.{all, any, keep, pairs, tab};
ghost use Rattle.variable.specs.Bytes.{variable_in, variables_of};
ghost use Rattle.machine.specs.Limits.{area_length, slot_count};
ghost use Rattle.variable.specs.Good.{beside, good_size, good_variables};
ghost use Rattle.variable.specs.Limits.{max_variables, memory_size};
ghost use Rattle.validation.specs.Columns.{clash, firsts, is_id, places, reach, sized, words_of};

use super::columns::{
    ADDRESS_AT, FEW, FIRSTS, KIND_AT, NAME_AT, OWNER_AT, PLACES, SIZE_AT, fill_bytes, fill_ends,
    fill_words, no_names, wide,
};
use machine::limits::SLOT_COUNT;
use variable::{COUNT_AT, ENTRIES_AT, ENTRY_SIZE, MAX_STRING, MAX_VARIABLES};

const MEMORY_SIZE: u16 = 256;

// No variable's: as start of a place behind the last one it lies behind every variable.
const NOWHERE: u16 = 65535;

// Document 01: "size 1, 2, 4 for types 1, 2, 4, or 1 to 30 for type 3"
fn is_good_size(kind: u16, size: u16) -> bool
    ensures { result ≡ good_size kind size }
{
    ((kind == 1) & (size == 1))
        | (((kind == 2) & (size == 2))
            | (((kind == 4) & (size == 4)) | ((kind == 3) & ((1 <= size) & (size <= MAX_STRING)))))
}

// "inside memory"
fn is_inside(address: u16, size: u16) -> bool
    requires { address + size < 65536 }
    ensures { result ≡ leb (address + size) memory_size }
{
    address + size <= MEMORY_SIZE
}

fn are_sized(area: &[u8], count: usize) -> bool
    requires { (length area.now ≡ area_length) × (count ≤ max_variables) }
    ensures { result ≡ all sized (tab (variable_in area.now) count) }
{
    let mut good = true;
    for i in 0..count {
        let at = ENTRIES_AT + i * ENTRY_SIZE;
        let size = wide(area[at + SIZE_AT]);
        good = good
            & (is_good_size(wide(area[at + KIND_AT]), size)
                & is_inside(wide(area[at + ADDRESS_AT]), size));
    }
    good
}

// "belong to live processes"
fn is_owner(ids: &[u16; SLOT_COUNT], id: u16) -> bool
    requires { length ids.now ≡ slot_count }
    ensures { result ≡ any (eqb id) (keep is_id ids.now) }
{
    let mut hit = false;
    for i in 0..SLOT_COUNT {
        hit = hit | (id == ids[i]);
    }
    (id != 0) & hit
}

fn are_owned(owners: &[u16; PLACES], ids: &[u16; SLOT_COUNT], count: usize) -> bool
    requires { (length owners.now ≡ places) × (length ids.now ≡ slot_count) × (count ≤ places) }
    ensures { result ≡ all (λ id. any (eqb id) (keep is_id ids.now)) (take count owners.now) }
{
    let mut good = true;
    for i in 0..count {
        good = good & is_owner(ids, owners[i]);
    }
    good
}

// Whether two variables d places from each other clash, the first of them below n. No way out of the loop, and n is one
// of two numbers that the compiler knows: so it is compiled to vector code.
fn is_clash(
    starts: &[u16; PLACES],
    ends: &[u16; PLACES],
    names: &[u16; PLACES],
    owners: &[u16; PLACES],
    d: usize,
    n: u32,
) -> bool
    requires { (d ≤ firsts) × (n ≤ firsts) }
    ensures { result ≡ any
        (λ i. clash starts.now ends.now names.now owners.now i (i + d))
        (tab (λ i. i) n) }
{
    let mut hit = false;
    for i in 0..n {
        let a = i as usize;
        let b = a + d;
        hit = hit
            | (((starts[a] < ends[b]) & (starts[b] < ends[a]))
                | ((names[a] == names[b]) & (owners[a] == owners[b])));
    }
    hit
}

// The same, where so many places are left for the first: some more may be read, none behind the last one clashes.
fn is_clash_at(
    starts: &[u16; PLACES],
    ends: &[u16; PLACES],
    names: &[u16; PLACES],
    owners: &[u16; PLACES],
    d: usize,
    left: usize,
) -> bool
    requires { d ≤ firsts }
    ensures { result ≡ any
        (λ i. clash starts.now ends.now names.now owners.now i (i + d))
        (tab (λ i. i) (reach left)) }
{
    if left <= FEW as usize {
        return is_clash(starts, ends, names, owners, d, FEW);
    }
    is_clash(starts, ends, names, owners, d, FIRSTS)
}

// "disjoint [..], have distinct (name, ID)": fewer than two need no columns.
fn are_beside(area: &[u8], owners: &[u16; PLACES], count: usize) -> bool
    requires { (length area.now ≡ area_length) × (count ≤ max_variables)
        × (owners.now ≡ overwrite (replicate places 0) 0 (words_of area.now 4 count)) }
    ensures { result ≡ pairs beside (tab (variable_in area.now) count) }
{
    if count < 2 {
        return true;
    }
    let mut starts = [NOWHERE; PLACES];
    let mut ends = [0u16; PLACES];
    let mut names = no_names();
    fill_bytes(&mut starts, area, ADDRESS_AT, count);
    fill_ends(&mut ends, area, count);
    fill_bytes(&mut names, area, NAME_AT, count);
    for d in 1..count {
        if is_clash_at(&starts, &ends, &names, owners, d, count - d) {
            return false;
        }
    }
    true
}

// The IDs are by slot, 0 where nothing lives.
pub fn are_good(area: &[u8], ids: &[u16; SLOT_COUNT]) -> bool
    requires { (length area.now ≡ area_length) × (length ids.now ≡ slot_count) }
    ensures { result ≡ good_variables (keep is_id ids.now) (variables_of area.now) }
{
    let count = area[COUNT_AT] as usize;
    if MAX_VARIABLES < count {
        return false;
    }
    if count == 0 {
        return true;
    }
    if !are_sized(area, count) {
        return false;
    }
    let mut owners = [0u16; PLACES];
    fill_words(&mut owners, area, OWNER_AT, count);
    if !are_owned(&owners, ids, count) {
        return false;
    }
    are_beside(area, &owners, count)
}

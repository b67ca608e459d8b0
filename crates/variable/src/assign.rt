// SET: a place for the new value, the entry and its bytes.
ghost use Rattle.std.specs.Prelude.{◌≡◌, ◌+◌, ◌≤◌, ◌<◌, length, take};
ghost use Rattle.buffer.specs.Buffer.{overwrite};
ghost use Rattle.place.specs.Place.{max_runs};
ghost use Rattle.variable.specs.Assign.{added, assigned, placing, placing_fault, taken_runs, value_of};
ghost use Rattle.variable.specs.Bytes.{variables_bytes, variables_of, with_memory};
ghost use Rattle.variable.specs.Closing.{Lists, SetLeaves};
ghost use Rattle.variable.specs.Limits.{max_variables, memory_size, value_size, variables_size};
ghost use Rattle.variable.specs.Table.{freed, is_of, run_of};

use crate::free::free;
use crate::table::{count_of, entry_at, is_of, put_count, put_entry};
use crate::{MAX_VARIABLES, MEMORY_SIZE, Taken, Unplaced, Variable};
use place::{MAX_RUNS, Run};

// All variables share one memory and one table.
const LOW_END: usize = 0;

const HIGH_END: usize = MEMORY_SIZE;

const ENTRY_LIMIT: usize = MAX_VARIABLES;

fn run_of(e: Variable) -> Run
    ensures { result ≡ run_of e }
{
    Run {
        start: e.address as u16,
        len: e.size as u16,
    }
}

// The runs of all variables but one: what is taken once that one is freed.
fn runs_beside(variables: &[u8], name: u8, owner: u16) -> Taken
    requires { (length variables.now ≡ variables_size)
        × ((variables_of variables.now).count ≤ max_variables) }
    ensures { Lists result (taken_runs (freed (variables_of variables.now) (is_of name owner))) }
{
    let count = count_of(variables);
    let mut runs = place::no_runs();
    let mut listed = 0;
    for i in 0..count {
        let e = entry_at(variables, i);
        if !is_of(e, name, owner) {
            runs[listed] = run_of(e);
            listed += 1;
        }
    }
    Taken {
        runs: runs,
        count: listed,
    }
}

// A place for n bytes among these runs, from low to high, where so many entries of so many are used.
// Document 01, fault 10: "no variable entry or run"
fn place_for(
    runs: &[Run],
    low: usize,
    high: usize,
    used: usize,
    limit: usize,
    n: usize,
) -> Result<usize, Unplaced>
    requires { (length runs.now ≤ max_runs) × (high < 65536) × (1 ≤ n) }
    ensures { result ≡ placing runs.now low high used limit n }
{
    if limit <= used {
        return Err(Unplaced::NoEntry);
    }
    place::find_place(runs, low, high, n).ok_or(Unplaced::NoRun)
}

// Document 01's fault number of a placing, 0 where there is none.
pub fn placing_fault(p: Result<usize, Unplaced>) -> u8
    ensures { result ≡ placing_fault p }
{
    match p {
        Ok(_) => 0,
        Err(_) => 10,
    }
}

fn put_memory(variables: &mut [u8], at: usize, bytes: &[u8])
    requires { (length variables.old ≡ variables_size) × (at + length bytes.now ≤ memory_size) }
    ensures { variables.new ≡ variables_bytes (with_memory (variables_of variables.old)
        (overwrite (variables_of variables.old).memory at bytes.now)) }
{
    buffer::bytes::overwrite_at(variables, at, bytes);
}

// The new entry last, the value's bytes in memory.
fn add(variables: &mut [u8], e: Variable, bytes: &[u8])
    requires { (length variables.old ≡ variables_size) × ((variables_of variables.old).count < max_variables)
        × (e.address + length bytes.now ≤ memory_size) }
    ensures { variables.new
        ≡ variables_bytes (added (variables_of variables.old) e bytes.now) }
{
    let used = count_of(variables);
    put_memory(variables, e.address as usize, bytes);
    put_entry(variables, used, e);
    put_count(variables, used as u8 + 1);
}

// Document 01: "SET first frees the old variable"; document 02, Q-10: "at the start of the shortest free run that fits,
// the lowest of equals". The place is looked for as if the old one were gone, so a SET that finds none writes nothing.
pub fn assign(
    variables: &mut [u8],
    name: u8,
    kind: u8,
    owner: u16,
    bytes: &[u8],
) -> Result<usize, Unplaced>
    requires { (length variables.old ≡ variables_size) × ((variables_of variables.old).count ≤ max_variables)
        × (1 ≤ length bytes.now) × (length bytes.now ≤ value_size) }
    ensures { SetLeaves result variables.new
        (assigned (variables_of variables.old) name owner (value_of kind bytes.now)) }
{
    let n = bytes.len();
    let taken = runs_beside(variables, name, owner);
    let used = taken.count;
    let runs = taken.runs;
    let a = place_for(&runs[..used], LOW_END, HIGH_END, used, ENTRY_LIMIT, n)?;
    free(variables, |e| is_of(e, name, owner));
    let e = Variable {
        name: name,
        kind: kind,
        address: a as u8,
        size: n as u8,
        owner: owner,
    };
    add(variables, e, bytes);
    Ok(a)
}

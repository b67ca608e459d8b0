// Freeing, in place. Document 01: "Freed memory keeps its bytes; freed entries close up, zeros behind."
ghost use Rattle.std.specs.Prelude.{◌≡◌, ◌≤◌, Bool, length};
ghost use Rattle.variable.specs.declared.Variable.{Variable};
ghost use Rattle.variable.specs.Bytes.{variables_bytes, variables_of, with_entries};
ghost use Rattle.variable.specs.Closing.{AnswersAs, ClosedUp, blanked};
ghost use Rattle.variable.specs.Limits.{max_variables, variables_size};
ghost use Rattle.variable.specs.Table.{freed, no_variable};

use crate::Variable;
use crate::table::{count_of, entry_at, put_count, put_entry};

fn no_variable() -> Variable
    ensures { result ≡ no_variable }
{
    Variable {
        name: 0,
        kind: 0,
        address: 0,
        size: 0,
        owner: 0,
    }
}

// The entries that stay, moved up; how many they are. An entry that has its place already is not written.
fn close_up<F: Fn(Variable) -> bool>(variables: &mut [u8], count: usize, gone: F) -> usize
    requires { (length variables.old ≡ variables_size) × (count ≤ max_variables) × F.IsAlwaysCallable gone }
    ensures bound { result ≤ count }
    ensures closed { (test : Variable → Bool) → AnswersAs (F.post gone) test
        → ClosedUp (variables_of variables.old) count test variables.new result }
{
    let mut kept = 0;
    for i in 0..count {
        let e = entry_at(variables, i);
        if !gone(e) {
            if kept < i {
                put_entry(variables, kept, e);
            }
            kept += 1;
        }
    }
    kept
}

// Zeros from one entry up to another.
fn blank(variables: &mut [u8], from: usize, end: usize)
    requires { (length variables.old ≡ variables_size) × (from ≤ end) × (end ≤ max_variables) }
    ensures { variables.new ≡ variables_bytes (with_entries (variables_of variables.old)
        (blanked (variables_of variables.old).entries from end)) }
{
    for i in from..end {
        put_entry(variables, i, no_variable());
    }
}

// Frees the variables that are gone. Document 01: "Ending (STOP, kill, fault) frees the process's variables."; "SET
// first frees the old variable".
pub fn free<F: Fn(Variable) -> bool>(variables: &mut [u8], gone: F)
    requires { (length variables.old ≡ variables_size)
        × ((variables_of variables.old).count ≤ max_variables) × F.IsAlwaysCallable gone }
    ensures { (test : Variable → Bool) → AnswersAs (F.post gone) test
        → variables.new ≡ variables_bytes (freed (variables_of variables.old) test) }
{
    let count = count_of(variables);
    let kept = close_up(variables, count, gone);
    blank(variables, kept, count);
    put_count(variables, kept as u8);
}

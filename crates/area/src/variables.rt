// The variables of the work area: memory, entries and count stand together at its front, and crate variable reads and
// writes that part.
ghost use Rattle.std.specs.Prelude.{Bool, ◌≡◌, ◌<◌, ◌≤◌, get_or, length};
ghost use Rattle.machine.specs.Area.{kernel_bytes, kernel_of};
ghost use Rattle.machine.specs.Limits.{area_length};
ghost use Rattle.machine.specs.State.{with_variables};
ghost use Rattle.variable.specs.Assign.{assigned, value_of};
ghost use Rattle.variable.specs.Limits.{max_variables, value_size};
ghost use Rattle.variable.specs.Table.{find, freed, no_variable};
ghost use Rattle.variable.specs.declared.Variable.{Variable};
ghost use Rattle.variable.specs.Closing.{AnswersAs};
ghost use Rattle.area.specs.Parts.{SetIn};

use variable::{Unplaced, VARIABLES_SIZE, Variable};

pub fn variable_at(area: &[u8], i: usize) -> Variable
    requires { (length area.now ≡ area_length) × (i < max_variables) }
    ensures { result ≡ get_or (kernel_of area.now).variables.entries i no_variable }
{
    variable::table::entry_at(&area[..VARIABLES_SIZE], i)
}

// The place in the table of the variable of that name and process.
pub fn find_in(area: &[u8], name: u8, owner: u16) -> Option<usize>
    requires { (length area.now ≡ area_length) × ((kernel_of area.now).variables.count ≤ max_variables) }
    ensures { result ≡ find (kernel_of area.now).variables name owner }
{
    variable::table::find_variable(&area[..VARIABLES_SIZE], name, owner)
}

// Frees the variables that are gone.
pub fn free_in<F: Fn(Variable) -> bool>(area: &mut [u8], gone: F)
    requires { (length area.old ≡ area_length) × ((kernel_of area.old).variables.count ≤ max_variables)
        × F.IsAlwaysCallable gone }
    ensures { (test : Variable → Bool) → AnswersAs (F.post gone) test
        → area.new ≡ kernel_bytes (with_variables (kernel_of area.old) (freed (kernel_of area.old).variables test)) }
{
    variable::free::free(&mut area[..VARIABLES_SIZE], gone);
}

// A SET of these bytes.
pub fn assign_in(
    area: &mut [u8],
    name: u8,
    kind: u8,
    owner: u16,
    bytes: &[u8],
) -> Result<usize, Unplaced>
    requires { (length area.old ≡ area_length) × ((kernel_of area.old).variables.count ≤ max_variables)
        × (1 ≤ length bytes.now) × (length bytes.now ≤ value_size) }
    ensures { SetIn result area.new (kernel_of area.old)
        (assigned (kernel_of area.old).variables name owner (value_of kind bytes.now)) }
{
    variable::assign::assign(&mut area[..VARIABLES_SIZE], name, kind, owner, bytes)
}

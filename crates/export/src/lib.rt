// The C boundary. Document 01: "The box firmware, in C, calls each operation with numbers and byte buffers." Each
// function is one equation with the machine's answer, for every buffer of every length. Programs in Rattle call them
// here; crate export_c exports them to C under the same names.
#![tactic(auto)]

ghost use Rattle.std.specs.Prelude.{List, ◌≡◌, ℕ};
ghost use Rattle.machine.specs.Answer.{answer, boot_answer, command, erase, files, format_answer, free_space, list};
ghost use Rattle.machine.specs.Answer.{other};
ghost use Rattle.machine.specs.Answer.{retrieve, round, run, share, store, turn};
ghost use Rattle.machine.specs.Operations.{kill, resume, suspend};
ghost use Rattle.operation.specs.Answers.{lent};
ghost use Rattle.export.specs.Returned.{returned};

use store::answer::number;

pub fn arduinos_format(disc: &mut [u8], area: &mut [u8]) -> i32
    ensures { (out : List ℕ) → returned result disc.new area.new out
        ≡ format_answer (lent disc.old area.old out) }
{
    number(operation::format::format(disc, area))
}

pub fn arduinos_boot(area: &mut [u8]) -> i32
    ensures { (disc out : List ℕ) → returned result disc area.new out
        ≡ boot_answer (lent disc area.old out) }
{
    number(operation::format::boot(area))
}

pub fn arduinos_store(disc: &mut [u8], name: &[u8], data: &[u8]) -> i32
    ensures { (area out : List ℕ) → returned result disc.new area out
        ≡ answer (other (store name.now «data».now)) (lent disc.old area out) }
{
    number(disc_operation::operations::store(disc, name, data))
}

pub fn arduinos_retrieve(disc: &[u8], name: &[u8], out: &mut [u8]) -> i32
    ensures { (area : List ℕ) → returned result disc.now area out.new
        ≡ answer (other (retrieve name.now)) (lent disc.now area out.old) }
{
    number(disc_operation::operations::retrieve(disc, name, out))
}

pub fn arduinos_erase(disc: &mut [u8], area: &[u8], name: &[u8]) -> i32
    ensures { (out : List ℕ) → returned result disc.new area.now out
        ≡ answer (other (erase name.now)) (lent disc.old area.now out) }
{
    number(operation::files::erase(disc, area, name))
}

pub fn arduinos_files(disc: &[u8], out: &mut [u8]) -> i32
    ensures { (area : List ℕ) → returned result disc.now area out.new
        ≡ answer (other files) (lent disc.now area out.old) }
{
    number(disc_operation::operations::files(disc, out))
}

pub fn arduinos_free_space(disc: &[u8]) -> i32
    ensures { (area out : List ℕ) → returned result disc.now area out
        ≡ answer (other free_space) (lent disc.now area out) }
{
    number(disc_operation::operations::free_space(disc))
}

pub fn arduinos_run(disc: &[u8], area: &mut [u8], name: &[u8]) -> i32
    ensures { (out : List ℕ) → returned result disc.now area.new out
        ≡ answer (run name.now) (lent disc.now area.old out) }
{
    number(operation::files::run(disc, area, name))
}

pub fn arduinos_suspend(disc: &[u8], area: &mut [u8], id: u32) -> i32
    ensures { (out : List ℕ) → returned result disc.now area.new out
        ≡ answer (command suspend id) (lent disc.now area.old out) }
{
    number(operation::commands::suspend(disc, area, id))
}

pub fn arduinos_resume(disc: &[u8], area: &mut [u8], id: u32) -> i32
    ensures { (out : List ℕ) → returned result disc.now area.new out
        ≡ answer (command resume id) (lent disc.now area.old out) }
{
    number(operation::commands::resume(disc, area, id))
}

pub fn arduinos_kill(disc: &[u8], area: &mut [u8], id: u32) -> i32
    ensures { (out : List ℕ) → returned result disc.now area.new out
        ≡ answer (command kill id) (lent disc.now area.old out) }
{
    number(operation::commands::kill(disc, area, id))
}

pub fn arduinos_share(disc: &[u8], area: &mut [u8], id: u32, turns: u32) -> i32
    ensures { (out : List ℕ) → returned result disc.now area.new out
        ≡ answer (share id turns) (lent disc.now area.old out) }
{
    number(operation::commands::share(disc, area, id, turns))
}

pub fn arduinos_list(disc: &[u8], area: &[u8], out: &mut [u8]) -> i32
    ensures { returned result disc.now area.now out.new
        ≡ answer (other list) (lent disc.now area.now out.old) }
{
    number(operation::list::list(disc, area, out))
}

pub fn arduinos_turn(disc: &mut [u8], area: &mut [u8], slot: u32, clock: u32, out: &mut [u8]) -> i32
    ensures { returned result disc.new area.new out.new
        ≡ answer (turn slot clock) (lent disc.old area.old out.old) }
{
    number(operation::turns::turn(disc, area, slot, clock, out))
}

pub fn arduinos_round(disc: &mut [u8], area: &mut [u8], clock: u32, out: &mut [u8]) -> i32
    ensures { returned result disc.new area.new out.new
        ≡ answer (round clock) (lent disc.old area.old out.old) }
{
    number(operation::turns::round(disc, area, clock, out))
}

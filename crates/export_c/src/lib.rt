// The static library that the box firmware links. A crate that Rattle programs use exports nothing to C, so each
// function of crate export stands here once more, with its contract; include/arduinos.h declares them.
#![tactic(auto)]

ghost use Rattle.std.specs.Prelude.{List, ◌≡◌, ℕ};
ghost use Rattle.machine.specs.Answer.{answer, boot_answer, command, erase, files, format_answer, free_space, list};
ghost use Rattle.machine.specs.Answer.{other};
ghost use Rattle.machine.specs.Answer.{retrieve, round, run, share, store, turn};
ghost use Rattle.machine.specs.Operations.{kill, resume, suspend};
ghost use Rattle.operation.specs.Answers.{lent};
ghost use Rattle.export.specs.Returned.{returned};

#[unsafe(no_mangle)]
pub extern "C" fn arduinos_format(disc: &mut [u8], area: &mut [u8]) -> i32
    ensures { (out : List ℕ) → returned result disc.new area.new out
        ≡ format_answer (lent disc.old area.old out) }
{
    export::arduinos_format(disc, area)
}

#[unsafe(no_mangle)]
pub extern "C" fn arduinos_boot(area: &mut [u8]) -> i32
    ensures { (disc out : List ℕ) → returned result disc area.new out
        ≡ boot_answer (lent disc area.old out) }
{
    export::arduinos_boot(area)
}

#[unsafe(no_mangle)]
pub extern "C" fn arduinos_store(disc: &mut [u8], name: &[u8], data: &[u8]) -> i32
    ensures { (area out : List ℕ) → returned result disc.new area out
        ≡ answer (other (store name.now «data».now)) (lent disc.old area out) }
{
    export::arduinos_store(disc, name, data)
}

#[unsafe(no_mangle)]
pub extern "C" fn arduinos_retrieve(disc: &[u8], name: &[u8], out: &mut [u8]) -> i32
    ensures { (area : List ℕ) → returned result disc.now area out.new
        ≡ answer (other (retrieve name.now)) (lent disc.now area out.old) }
{
    export::arduinos_retrieve(disc, name, out)
}

#[unsafe(no_mangle)]
pub extern "C" fn arduinos_erase(disc: &mut [u8], area: &[u8], name: &[u8]) -> i32
    ensures { (out : List ℕ) → returned result disc.new area.now out
        ≡ answer (other (erase name.now)) (lent disc.old area.now out) }
{
    export::arduinos_erase(disc, area, name)
}

#[unsafe(no_mangle)]
pub extern "C" fn arduinos_files(disc: &[u8], out: &mut [u8]) -> i32
    ensures { (area : List ℕ) → returned result disc.now area out.new
        ≡ answer (other files) (lent disc.now area out.old) }
{
    export::arduinos_files(disc, out)
}

#[unsafe(no_mangle)]
pub extern "C" fn arduinos_free_space(disc: &[u8]) -> i32
    ensures { (area out : List ℕ) → returned result disc.now area out
        ≡ answer (other free_space) (lent disc.now area out) }
{
    export::arduinos_free_space(disc)
}

#[unsafe(no_mangle)]
pub extern "C" fn arduinos_run(disc: &[u8], area: &mut [u8], name: &[u8]) -> i32
    ensures { (out : List ℕ) → returned result disc.now area.new out
        ≡ answer (run name.now) (lent disc.now area.old out) }
{
    export::arduinos_run(disc, area, name)
}

#[unsafe(no_mangle)]
pub extern "C" fn arduinos_suspend(disc: &[u8], area: &mut [u8], id: u32) -> i32
    ensures { (out : List ℕ) → returned result disc.now area.new out
        ≡ answer (command suspend id) (lent disc.now area.old out) }
{
    export::arduinos_suspend(disc, area, id)
}

#[unsafe(no_mangle)]
pub extern "C" fn arduinos_resume(disc: &[u8], area: &mut [u8], id: u32) -> i32
    ensures { (out : List ℕ) → returned result disc.now area.new out
        ≡ answer (command resume id) (lent disc.now area.old out) }
{
    export::arduinos_resume(disc, area, id)
}

#[unsafe(no_mangle)]
pub extern "C" fn arduinos_kill(disc: &[u8], area: &mut [u8], id: u32) -> i32
    ensures { (out : List ℕ) → returned result disc.now area.new out
        ≡ answer (command kill id) (lent disc.now area.old out) }
{
    export::arduinos_kill(disc, area, id)
}

#[unsafe(no_mangle)]
pub extern "C" fn arduinos_share(disc: &[u8], area: &mut [u8], id: u32, turns: u32) -> i32
    ensures { (out : List ℕ) → returned result disc.now area.new out
        ≡ answer (share id turns) (lent disc.now area.old out) }
{
    export::arduinos_share(disc, area, id, turns)
}

#[unsafe(no_mangle)]
pub extern "C" fn arduinos_list(disc: &[u8], area: &[u8], out: &mut [u8]) -> i32
    ensures { returned result disc.now area.now out.new
        ≡ answer (other list) (lent disc.now area.now out.old) }
{
    export::arduinos_list(disc, area, out)
}

#[unsafe(no_mangle)]
pub extern "C" fn arduinos_turn(
    disc: &mut [u8],
    area: &mut [u8],
    slot: u32,
    clock: u32,
    out: &mut [u8],
) -> i32
    ensures { returned result disc.new area.new out.new
        ≡ answer (turn slot clock) (lent disc.old area.old out.old) }
{
    export::arduinos_turn(disc, area, slot, clock, out)
}

#[unsafe(no_mangle)]
pub extern "C" fn arduinos_round(
    disc: &mut [u8],
    area: &mut [u8],
    clock: u32,
    out: &mut [u8],
) -> i32
    ensures { returned result disc.new area.new out.new
        ≡ answer (round clock) (lent disc.old area.old out.old) }
{
    export::arduinos_round(disc, area, clock, out)
}

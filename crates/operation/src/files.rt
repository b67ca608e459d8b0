// Erase, and run: the operations on both buffers that take a name.
ghost use Rattle.std.specs.Prelude.{◌≡◌, List, ℕ};
ghost use Rattle.machine.specs.Answer.{answer, erase, other, run};
ghost use Rattle.operation.specs.Answers.{answered, lent};

use request::start::find_start;
use store::{Answer, Refusal};
use validation::check;

// Document 01, Erase: "10; 11 a live process runs it or has it open."
pub fn erase(disc: &mut [u8], area: &[u8], name: &[u8]) -> Answer
    ensures { (out : List ℕ) → answered result disc.new area.now out
        ≡ answer (other (erase name.now)) (lent disc.old area.now out) }
{
    check(disc, area)?;
    let i = disc::directory::find(disc, name).ok_or(Refusal::NoSuchFile)?;
    if area::processes::is_in_use(area, disc::directory::entry_at(disc, i)) {
        return Err(Refusal::FileInUse);
    }
    store::file::erase_entry(disc, i);
    Ok(0)
}

// Document 01, Run: "Returns the ID."
pub fn run(disc: &[u8], area: &mut [u8], name: &[u8]) -> Answer
    ensures { (out : List ℕ) → answered result disc.now area.new out
        ≡ answer (run name.now) (lent disc.now area.old out) }
{
    check(disc, area)?;
    let start = find_start(disc, area, name)?;
    let next = area::records::next_id(area);
    request::start::start(
        area,
        start.slot,
        disc::directory::entry_at(disc, start.place),
    );
    Ok(next)
}

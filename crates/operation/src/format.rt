// Format and boot: they take any bytes of the right length.
ghost use Rattle.std.specs.Prelude.{◌≡◌, List, ℕ, length};
ghost use Rattle.machine.specs.Answer.{boot_answer, booted, format_answer};
ghost use Rattle.machine.specs.Limits.{area_length};
ghost use Rattle.operation.specs.Answers.{answered, lent};

use machine::limits::{AREA_LENGTH, NEXT_AT};
use store::{Answer, Refusal};

// Document 01: "Boot zeroes the work area and sets next ID to 1."
fn clear_area(area: &mut [u8])
    requires { length area.old ≡ area_length }
    ensures { area.new ≡ booted }
{
    area.fill(0);
    area[NEXT_AT] = 1;
}

pub fn boot(area: &mut [u8]) -> Answer
    ensures { (disc out : List ℕ) → answered result disc area.new out
        ≡ boot_answer (lent disc area.old out) }
{
    if area.len() != AREA_LENGTH {
        return Err(Refusal::WrongLength);
    }
    clear_area(area);
    Ok(0)
}

// Document 01: "Format zeroes the disc, then boots."
pub fn format(disc: &mut [u8], area: &mut [u8]) -> Answer
    ensures { (out : List ℕ) → answered result disc.new area.new out
        ≡ format_answer (lent disc.old area.old out) }
{
    if !disc::good::is_disc_length(disc.len()) {
        return Err(Refusal::WrongLength);
    }
    if area.len() != AREA_LENGTH {
        return Err(Refusal::WrongLength);
    }
    disc.fill(0);
    clear_area(area);
    Ok(0)
}

// The tests of disc and work area that every operation on both buffers makes first, on their bytes.
#![tactic(auto)]

pub mod good;

ghost use Rattle.std.specs.Prelude.{◌≡◌};
ghost use Rattle.validation.specs.Tests.{tested};

use machine::limits::AREA_LENGTH;
use store::Refusal;

// What every operation on both buffers tries first. Document 01: "1: a buffer has the wrong length. 2: disc not good.
// 3: work area not good."
pub fn check(disc: &[u8], area: &[u8]) -> Result<(), Refusal>
    ensures { result ≡ tested disc.now area.now }
{
    if !disc::good::is_disc_length(disc.len()) || area.len() != AREA_LENGTH {
        return Err(Refusal::WrongLength);
    }
    if !disc::good::is_good_disc(disc) {
        return Err(Refusal::BadDisc);
    }
    if !good::is_good_area(disc, area) {
        return Err(Refusal::BadArea);
    }
    Ok(())
}

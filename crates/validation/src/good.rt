// Whether a work area is good, tested on its bytes. These tests run at every call: docs/COSTS.md has their speed. The
// loop over pairs of variables counts in 32 bits, one register on a small machine too.
mod columns;
mod ids;
mod records;
mod variables;

ghost use Rattle.std.specs.Prelude.{◌≡◌, true, eqb, length};
ghost use Rattle.buffer.specs.Buffer.{part};
ghost use Rattle.buffer.specs.Lists.{all};
ghost use Rattle.disc.specs.Directory.{Readable, good_disc};
ghost use Rattle.machine.specs.Answer.{good_area};
ghost use Rattle.machine.specs.Area.{kernel_of};
ghost use Rattle.machine.specs.GoodArea.{good_header};
ghost use Rattle.machine.specs.Limits.{area_length, zeros_at, zeros_size};

use buffer::bytes::{four_at, word_at};
use machine::limits::{ID_LIMIT, NEXT_AT, ZEROS_AT, ZEROS_SIZE};

// "its seven zeros", as two numbers of four bytes that share one
fn has_zeros(area: &[u8]) -> bool
    requires { length area.now ≡ area_length }
    ensures { result ≡ all (eqb 0) (part area.now zeros_at zeros_size) }
{
    (four_at(area, ZEROS_AT) == 0) & (four_at(area, ZEROS_AT + ZEROS_SIZE - 4) == 0)
}

// "next ID 1 to 32768"
fn is_good_header(area: &[u8]) -> bool
    requires { length area.now ≡ area_length }
    ensures { result ≡ good_header (kernel_of area.now) }
{
    let next = word_at(area, NEXT_AT);
    has_zeros(area) & ((1 <= next) & (next <= ID_LIMIT))
}

pub fn is_good_area(disc: &[u8], area: &[u8]) -> bool
    requires { (Readable disc.now) × (good_disc disc.now ≡ true) × (length area.now ≡ area_length) }
    ensures { result ≡ good_area disc.now area.now }
{
    if !is_good_header(area) {
        return false;
    }
    let runs = records::file_runs(disc);
    if !records::are_good(disc, &runs, area) {
        return false;
    }
    let ids = ids::live_ids(area);
    if !ids::are_distinct(&ids) {
        return false;
    }
    variables::are_good(area, &ids)
}

// List: a line for each live process.
ghost use Rattle.std.specs.Prelude.{◌≡◌, ◌+◌, ◌≤◌, length};
ghost use Rattle.buffer.specs.Laid.{Laid};
ghost use Rattle.machine.specs.Answer.{answer, list, other};
ghost use Rattle.machine.specs.Area.{kernel_of, process_of};
ghost use Rattle.machine.specs.Limits.{area_length, record_size};
ghost use Rattle.machine.specs.Operations.{list_text};
ghost use Rattle.operation.specs.Answers.{answered, lent};
ghost use Rattle.operation.specs.Lines.{line_of};

use area::processes::is_live;
use area::records::{ID_AT, STATE_AT, record_at};
use disc::layout::NAME_SIZE;
use machine::limits::SLOT_COUNT;
use store::{Answer, Refusal};
use validation::check;

// Document 01, List: "ID, space, 'r' or 'p', space, name, newline per live process". Nothing for one that has ended.
fn line_length(bytes: &[u8]) -> usize
    requires { length bytes.now ≡ record_size }
    ensures { result ≡ length (line_of (process_of bytes.now)) }
{
    if !is_live(bytes) {
        return 0;
    }
    let id = buffer::bytes::word_at(bytes, ID_AT);
    decimal::decimal_length(id as u32) + disc::name::text_length(&bytes[..NAME_SIZE]) + 4
}

fn put_line(out: &mut [u8], at: usize, bytes: &[u8]) -> usize
    requires bytes_len { length bytes.now ≡ record_size }
    requires bytes_in_bounds { at + length (line_of (process_of bytes.now)) ≤ length out.old }
    ensures { Laid out.old at (line_of (process_of bytes.now)) out.new result }
{
    if !is_live(bytes) {
        return at;
    }
    let id = buffer::bytes::word_at(bytes, ID_AT);
    let counted = decimal::put_decimal(out, at, id as u32);
    let state = [b' ', bytes[STATE_AT], b' '];
    let stated = buffer::bytes::put_bytes(out, counted, &state);
    let named = disc::name::put_name(out, stated, &bytes[..NAME_SIZE]);
    buffer::bytes::put_bytes(out, named, b"\n")
}

// Document 01, List: "in slot order".
fn list_length(area: &[u8]) -> usize
    requires { length area.now ≡ area_length }
    ensures { result ≡ length (list_text (kernel_of area.now)) }
{
    let mut len: usize = 0;
    for slot in 0..SLOT_COUNT {
        len += line_length(record_at(area, slot));
    }
    len
}

fn put_list(area: &[u8], out: &mut [u8]) -> usize
    requires area_len { length area.now ≡ area_length }
    requires area_in_bounds { length (list_text (kernel_of area.now)) ≤ length out.old }
    ensures { Laid out.old 0 (list_text (kernel_of area.now)) out.new result }
{
    let mut at: usize = 0;
    for slot in 0..SLOT_COUNT {
        at = put_line(out, at, record_at(area, slot));
    }
    at
}

// Document 01, List: "returns the bytes written". The length is tested before the first of them.
pub fn list(disc: &[u8], area: &[u8], out: &mut [u8]) -> Answer
    ensures { answered result disc.now area.now out.new
        ≡ answer (other list) (lent disc.now area.now out.old) }
{
    check(disc, area)?;
    if out.len() < list_length(area) {
        return Err(Refusal::ShortOutput);
    }
    Ok(put_list(area, out) as u16)
}

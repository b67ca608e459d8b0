// The operations on the disc alone, for every disc, name and buffer. A refused one writes nothing.
ghost use Rattle.std.specs.Prelude.{◌≡◌, ◌+◌, ◌≤◌, length};
ghost use Rattle.buffer.specs.Laid.{Laid};
ghost use Rattle.buffer.specs.Lists.{flat};
ghost use Rattle.disc.specs.Directory.{Readable, files};
ghost use Rattle.store.specs.Answer.{answer_number, checked, file_line, files_answer, free_space_answer, reported};
ghost use Rattle.store.specs.Answer.{retrieve_answer, store_answer, updated};

use disc::Entry;
use place::Run;
use store::{Answer, Refusal};

// Document 01: "1: a buffer has the wrong length. 2: disc not good." Every operation tries these first.
pub fn check(disc: &[u8]) -> Result<(), Refusal>
    ensures { result ≡ checked disc.now }
{
    if !disc::good::is_disc_length(disc.len()) {
        return Err(Refusal::WrongLength);
    }
    if !disc::good::is_good_disc(disc) {
        return Err(Refusal::BadDisc);
    }
    Ok(())
}

pub fn store(disc: &mut [u8], name: &[u8], data: &[u8]) -> Answer
    ensures { updated result disc.new ≡ store_answer disc.old name.now
        «data».now }
{
    check(disc)?;
    let start = store::file::admit(disc, name, data.len())?;
    store::file::enter(disc, name, data.len(), start);
    let run = Run {
        start: start as u16,
        len: data.len() as u16,
    };
    store::file::write_at(disc, run, 0, data);
    Ok(0)
}

pub fn retrieve(disc: &[u8], name: &[u8], out: &mut [u8]) -> Answer
    ensures { reported result out.new ≡ retrieve_answer disc.now name.now
        out.old }
{
    check(disc)?;
    let i = disc::directory::find(disc, name).ok_or(Refusal::NoSuchFile)?;
    let entry = disc::directory::entry_at(disc, i);
    let len = entry.len as usize;
    if out.len() < len {
        return Err(Refusal::ShortOutput);
    }
    let run = Run {
        start: entry.start,
        len: entry.len,
    };
    store::file::read_at(disc, run, 0, &mut out[..len]);
    Ok(entry.len)
}

// Document 01, Files: "a line per file, name, space, length, newline".
fn line_length(entry: Entry) -> usize
    ensures { result ≡ length (file_line entry) }
{
    let name = entry.name;
    disc::name::text_length(&name) + decimal::decimal_length(entry.len as u32) + 2
}

fn put_line(out: &mut [u8], at: usize, entry: Entry) -> usize
    requires { at + length (file_line entry) ≤ length out.old }
    ensures { Laid out.old at (file_line entry) out.new result }
{
    let name = entry.name;
    let named = disc::name::put_name(out, at, &name);
    let spaced = buffer::bytes::put_bytes(out, named, b" ");
    let counted = decimal::put_decimal(out, spaced, entry.len as u32);
    buffer::bytes::put_bytes(out, counted, b"\n")
}

fn files_length(disc: &[u8]) -> usize
    requires { Readable disc.now }
    ensures { result ≡ length (flat file_line (files disc.now)) }
{
    let count = disc::directory::file_count(disc);
    let mut len: usize = 0;
    for i in 0..count {
        len += line_length(disc::directory::entry_at(disc, i));
    }
    len
}

fn put_files(disc: &[u8], out: &mut [u8]) -> usize
    requires readable { Readable disc.now }
    requires disc_in_bounds { length (flat file_line (files disc.now)) ≤ length out.old }
    ensures { Laid out.old 0 (flat file_line (files disc.now)) out.new result }
{
    let count = disc::directory::file_count(disc);
    let mut at: usize = 0;
    for i in 0..count {
        at = put_line(out, at, disc::directory::entry_at(disc, i));
    }
    at
}

// Document 01, Files: "returns the bytes written". The length is tested before the first of them.
pub fn files(disc: &[u8], out: &mut [u8]) -> Answer
    ensures { reported result out.new ≡ files_answer disc.now out.old }
{
    check(disc)?;
    if out.len() < files_length(disc) {
        return Err(Refusal::ShortOutput);
    }
    Ok(put_files(disc, out) as u16)
}

// Document 01: "Free space: the longest free run, however many files there are."
pub fn free_space(disc: &[u8]) -> Answer
    ensures { answer_number result ≡ free_space_answer disc.now }
{
    check(disc)?;
    Ok(store::file::room_on(disc) as u16)
}

// What the programs that run outside vectors share: how a vector begins, a buffer's length, and the line of an answer.
#![tactic(auto)]

ghost use Rattle.std.specs.Prelude.{◌≤◌, IfOk};

use printing::Checksum;
use std::io;
use std::io::Read;

// A proved loop ends; one over vectors at the latest after so many.
const MOST: u32 = 100000;

// Runs each vector of the input. Its letter is read here, which says what it calls, the rest by what the caller passes.
pub fn run_all<R: Read, F: FnMut(&mut R, u8) -> io::Result<()>>(
    input: &mut R,
    mut run: F,
) -> io::Result<()>
    requires { F.IsAlwaysCallable run }
{
    for _ in 0..MOST {
        let Some(letter) = input.bytes().next().transpose()? else {
            break;
        };
        run(input, letter)?;
    }
    Ok(())
}

// The length of a buffer in two bytes, low byte first; one that has no room counts as empty.
pub fn read_length(input: &mut impl Read, most: usize) -> io::Result<usize>
    ensures { IfOk result (λ length. length ≤ most) }
{
    let mut bytes = [0; 2];
    input.read_exact(&mut bytes)?;
    let length = usize::from(u16::from_le_bytes(bytes));
    Ok(if length <= most { length } else { 0 })
}

// A vector's line: its letter, the number that the call returned, and checksums of the buffers after the call.
pub fn print_line(rt: &impl Print, letter: u8, number: i32, buffers: &[&[u8]]) -> io::Result<()> {
    rt.write_all(&[letter])?;
    print!(rt; " {number}")?;
    for buffer in buffers {
        print!(rt; " {}", Checksum(buffer))?;
    }
    println!(rt;)
}

// Literals, variables and output.
ghost use Rattle.std.specs.Prelude.{◌++◌, ◌+◌, ◌≡◌, ◌≤◌, ◌<◌, length};
ghost use Rattle.instruction.specs.Printing.{Printable};
ghost use Rattle.instruction.specs.Readable.{Readable};
ghost use Rattle.machine.specs.Effect.{newline, printed};
ghost use Rattle.machine.specs.Exec.{gets, prints, push_literal, push_text, sets};
ghost use Rattle.machine.specs.Area.{kernel_of};
ghost use Rattle.machine.specs.Limits.{area_length, stack_size};
ghost use Rattle.stack.specs.Frames.{Performs};
ghost use Rattle.stack.specs.Steps.{step_of};
ghost use Rattle.variable.specs.Table.{owned};

use area::variables::{find_in, variable_at};
use disc::name::text_length;
use machine::fault::Fault;
use operator::instruction::Types;
use stack::frame::Frame;
use stack::tops::{number_of, top_value};
use stack::{Action, STRING_KIND, Step};

// CHAR, INT and FLOAT: as many argument bytes as the type says.
pub fn push_literal(frame: &Frame<'_>, kind: u8) -> Result<Step, Fault>
    ensures { Performs frame.now (λ code stack loopstart at. push_literal code stack loopstart at kind) result }
{
    let from = frame.at + 1;
    let to = from + usize::from(kind);
    if frame.process.code.len() < to {
        return Err(Fault::CodeEnded);
    }
    frame.process.push_bytes(
        frame.process.stack.len(),
        &frame.process.code[from..to],
        &[kind],
        to,
    )
}

// STRING: up to its zero inside the code.
pub fn push_text(frame: &Frame<'_>) -> Result<Step, Fault>
    ensures { Performs frame.now push_text result }
{
    let from = frame.at + 1;
    let to = from + (text_length(&frame.process.code[from..]) + 1);
    if frame.process.code.len() < to {
        return Err(Fault::CodeEnded);
    }
    frame.process.push_item(
        frame.process.stack.len(),
        STRING_KIND,
        &frame.process.code[from..to],
        to,
    )
}

pub fn set_variable(frame: &Frame<'_>) -> Result<Step, Fault>
    ensures { Performs frame.now sets result }
{
    let from = frame.at + 1;
    let to = from + 1;
    if frame.process.code.len() < to {
        return Err(Fault::CodeEnded);
    }
    let x = top_value(frame.process.stack, Types::AnyValue)?;
    Ok(
        frame.process.act_on(
            Action::Assign(frame.process.code[from], x.kind),
            x.at,
            x.len,
            to,
        ),
    )
}

pub fn get_variable(frame: &Frame<'_>, area: &[u8], owner: u16) -> Result<Step, Fault>
    requires { (length area.now ≡ area_length) × Readable (kernel_of area.now).variables }
    ensures { Performs frame.now (λ code stack loopstart at. gets code stack loopstart at
        (owned (kernel_of area.now).variables owner)) result }
{
    let from = frame.at + 1;
    let to = from + 1;
    if frame.process.code.len() < to {
        return Err(Fault::CodeEnded);
    }
    match find_in(area, frame.process.code[from], owner) {
        Some(i) => {
            let e = variable_at(area, i);
            let start = e.address as usize;
            let end = start + e.size as usize;
            frame
                .process
                .push_item(frame.process.stack.len(), e.kind, &area[start..end], to)
        }
        None => Err(Fault::NoVariable),
    }
}

fn print_text(frame: &Frame<'_>, text: &[u8], ends: bool, kept: usize) -> Step
    requires { (length text.now < stack_size) × (kept ≤ stack_size) }
    ensures { (result ≡ step_of Action.Print kept (text.now ++ newline ends) (frame.now.at + 1)
        frame.now.process.loopstart)
        × (result.len ≤ stack_size) }
{
    if ends {
        return frame
            .process
            .step(Action::Print, kept, text, b"\n", frame.at + 1);
    }
    frame
        .process
        .step(Action::Print, kept, text, b"", frame.at + 1)
}

// Document 01: "PRINT: CHAR one byte; INT decimal; STRING without its zero; FLOAT to the nearest hundredth"
fn print_value(frame: &Frame<'_>, kind: u8, bytes: &[u8], ends: bool, kept: usize) -> Step
    requires { Printable kind bytes.now × (kept ≤ stack_size) }
    ensures { (result ≡ step_of Action.Print kept
        (printed (record { kind = kind; bytes = bytes.now }) ++ newline ends) (frame.now.at + 1)
        frame.now.process.loopstart)
        × (result.len ≤ stack_size) }
{
    if kind == STRING_KIND {
        let n = text_length(bytes);
        return print_text(frame, &bytes[..n], ends, kept);
    }
    let text = number::text::write(number_of(kind, bytes));
    print_text(frame, text.as_slice(), ends, kept)
}

// PRINT, and PRINTLN with a newline.
#[tactic(auto, unfolding(machine::specs::Effect::settle))]
pub fn print(frame: &Frame<'_>, ends: bool) -> Result<Step, Fault>
    ensures { Performs frame.now (λ code stack loopstart at. prints code stack loopstart at ends) result }
{
    let x = top_value(frame.process.stack, Types::AnyValue)?;
    let end = x.at + x.len;
    Ok(print_value(frame, x.kind, &frame.process.stack[x.at..end], ends, x.at))
}

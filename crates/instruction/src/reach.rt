// Instructions that reach beyond the process: their operands come off the stack here.
ghost use Rattle.machine.specs.Asking.{reaches};
ghost use Rattle.stack.specs.Frames.{Performs};

use machine::fault::Fault;
use machine::instruction::Reach;
use operator::instruction::Types;
use stack::frame::Frame;
use stack::tops::{top_number, top_value};
use stack::{Action, Step};

// Document 01: "OPEN pops the size, then the name (as for FORK, the string less its zero)"
fn open_file(frame: &Frame<'_>) -> Result<Step, Fault>
    ensures { Performs frame.now (λ code stack loopstart at. reaches code stack loopstart at Reach.OpenFile) result }
{
    let size = top_number(frame.process.stack, Types::AnyNumber)?;
    let name = top_value(&frame.process.stack[..size.below], Types::AnyString)?;
    Ok(
        frame.process.act_on(
            Action::Open(size.number),
            name.at,
            name.len - 1,
            frame.at + 1,
        ),
    )
}

fn write_file(frame: &Frame<'_>) -> Result<Step, Fault>
    ensures { Performs frame.now (λ code stack loopstart at. reaches code stack loopstart at Reach.WriteFile) result }
{
    let x = top_value(frame.process.stack, Types::AnyValue)?;
    Ok(
        frame
            .process
            .act_on(Action::Write, x.at, x.len, frame.at + 1),
    )
}

fn fork_process(frame: &Frame<'_>) -> Result<Step, Fault>
    ensures { Performs frame.now (λ code stack loopstart at. reaches code stack loopstart at Reach.Fork) result }
{
    let name = top_value(frame.process.stack, Types::AnyString)?;
    Ok(
        frame
            .process
            .act_on(Action::Fork, name.at, name.len - 1, frame.at + 1),
    )
}

fn wait(frame: &Frame<'_>) -> Result<Step, Fault>
    ensures { Performs frame.now
        (λ code stack loopstart at. reaches code stack loopstart at Reach.WaitUntilDone) result }
{
    let id = top_number(frame.process.stack, Types::AnyNumber)?;
    Ok(
        frame
            .process
            .act_on(Action::Await(id.number), id.below, 0, frame.at + 1),
    )
}

// CLOSE and the READs take nothing off the stack.
pub fn reach(frame: &Frame<'_>, r: Reach) -> Result<Step, Fault>
    ensures { Performs frame.now (λ code stack loopstart at. reaches code stack loopstart at r) result }
{
    match r {
        Reach::OpenFile => open_file(frame),
        Reach::CloseFile => Ok(frame.process.act(Action::Close, frame.at + 1)),
        Reach::WriteFile => write_file(frame),
        Reach::ReadNumber(kind) => Ok(frame.process.act(Action::Read(kind), frame.at + 1)),
        Reach::ReadString => Ok(frame.process.act(Action::ReadString, frame.at + 1)),
        Reach::Fork => fork_process(frame),
        Reach::WaitUntilDone => wait(frame),
    }
}

// One instruction.
ghost use Rattle.std.specs.Prelude.{◌≡◌, ◌≤◌, length};
ghost use Rattle.instruction.specs.Readable.{Readable};
ghost use Rattle.machine.specs.Area.{kernel_of};
ghost use Rattle.machine.specs.Exec.{exec, performs};
ghost use Rattle.machine.specs.Limits.{area_length, stack_size};
ghost use Rattle.stack.specs.Frames.{Performs};
ghost use Rattle.stack.specs.Ready.{max_code};
ghost use Rattle.stack.specs.Steps.{Means, placed};
ghost use Rattle.variable.specs.Table.{owned};

use crate::decode::instruction;
use crate::reach::reach;
use crate::values::{get_variable, print, push_literal, push_text, set_variable};
use control::clock::{delay, push_clock};
use control::flow::{drop_number, end_while, enter_while, jump_if, loop_back, mark_loop};
use evaluation::operate::operate;
use machine::fault::Fault;
use machine::instruction::Instruction;
use stack::frame::{Frame, Running};
use stack::{Action, Step};

// Only GET looks at the work area.
#[tactic(auto, unfolding(machine::specs::Exec::performs))]
fn perform(
    frame: &Frame<'_>,
    clock: u32,
    area: &[u8],
    owner: u16,
    i: Instruction,
) -> Result<Step, Fault>
    requires { (length area.now ≡ area_length) × Readable (kernel_of area.now).variables }
    ensures { Performs frame.now (λ code stack loopstart at. performs code stack loopstart at clock i
        (owned (kernel_of area.now).variables owner)) result }
{
    match i {
        Instruction::Literal(kind) => push_literal(frame, kind),
        Instruction::StringLiteral => push_text(frame),
        Instruction::SetVariable => set_variable(frame),
        Instruction::GetVariable => get_variable(frame, area, owner),
        Instruction::Operate(operator) => operate(frame, operator),
        Instruction::DelayUntil => delay(frame, clock),
        Instruction::Millis => push_clock(frame, clock),
        Instruction::Print(ends) => print(frame, ends),
        Instruction::JumpIf(zero) => jump_if(frame, zero),
        Instruction::EndIf => drop_number(frame),
        Instruction::While => enter_while(frame),
        Instruction::EndWhile => end_while(frame),
        Instruction::Loop => mark_loop(frame),
        Instruction::EndLoop => loop_back(frame),
        Instruction::Stop => Ok(Step::last(Action::Stop)),
        Instruction::Beyond(r) => reach(frame, r),
        Instruction::Unknown => Err(Fault::NoInstruction),
    }
}

// The step of the process `owner` at its place in the code. Document 01: "1 no such instruction; 2 code ended"
#[tactic(auto, unfolding(machine::specs::Exec::exec))]
pub fn execute(
    code: &[u8],
    stack: &[u8],
    at: usize,
    loopstart: u16,
    clock: u32,
    area: &[u8],
    owner: u16,
) -> Result<Step, Fault>
    requires { (length code.now ≤ max_code) × (length stack.now ≤ stack_size) × (length area.now ≡ area_length)
        × Readable (kernel_of area.now).variables }
    ensures { Means stack.now result (exec code.now clock
        (placed stack.now at loopstart) (owned (kernel_of area.now).variables owner)) }
{
    if code.len() <= at {
        return Err(Fault::CodeEnded);
    }
    let process = Running {
        code,
        stack,
        loopstart,
    };
    let frame = Frame { process, at };
    perform(&frame, clock, area, owner, instruction(code[at]))
}

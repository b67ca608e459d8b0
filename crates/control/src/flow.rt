// Jumps and loops. Jumps count from past the arguments.
ghost use Rattle.std.specs.Prelude.{cond, ◌∷◌, [], ◌++◌, ◌+◌, ◌≤◌, leb, length, take};
ghost use Rattle.machine.specs.Effect.{unless_faults};
ghost use Rattle.machine.specs.Exec.{drops, ends_while, jumps_if, loops_back, marks_loop, whiles};
ghost use Rattle.stack.specs.Frames.{Performs, lands};
ghost use Rattle.stack.specs.Steps.{Means};

use machine::fault::Fault;
use number::value::is_zero;
use operator::instruction::Types;
use stack::Step;
use stack::frame::{Frame, Running};
use stack::tops::top_number;

// Document 01: "loop 2 (hex FFFF: none)"
const NO_LOOP: u16 = 65535;

// Document 01, fault 8: "c + b above 251 on a value not zero"
const MAX_DISTANCE: usize = 251;

// IF and ELSE look at a number and leave it as it lies.
pub fn jump_if(frame: &Frame<'_>, zero: bool) -> Result<Step, Fault>
    ensures { Performs frame.now (λ code stack loopstart at. jumps_if code stack loopstart at zero) result }
{
    let from = frame.at + 1;
    let to = from + 1;
    if frame.process.code.len() < to {
        return Err(Fault::CodeEnded);
    }
    let x = top_number(frame.process.stack, Types::AnyNumber)?;
    if is_zero(x.number) == zero {
        return frame
            .process
            .jump(to + usize::from(frame.process.code[from]));
    }
    frame.process.jump(to)
}

// ENDIF
pub fn drop_number(frame: &Frame<'_>) -> Result<Step, Fault>
    ensures { Performs frame.now drops result }
{
    let x = top_number(frame.process.stack, Types::AnyNumber)?;
    frame.process.go(x.below, frame.at + 1)
}

// Document 01: "zero skips b + 1; otherwise the raw byte c + b + 4 is pushed."
fn choose_while(
    frame: &Frame<'_>,
    kept: usize,
    zero: bool,
    c: u8,
    b: u8,
    to: usize,
) -> Result<Step, Fault>
    requires { (kept ≤ length frame.now.process.stack.now) × (to ≤ length frame.now.process.code.now) }
    ensures { Means frame.now.process.stack.now result (cond zero
        (lands frame.now.process (to + (b + 1)) (take kept frame.now.process.stack.now))
        (unless_faults (leb (c + b) 251) 8
        (lands frame.now.process to (take kept frame.now.process.stack.now ++ ((c + b + 4) ∷ []))))) }
{
    if zero {
        return frame.process.go(kept, to + (usize::from(b) + 1));
    }
    let distance = usize::from(c) + usize::from(b);
    if MAX_DISTANCE < distance {
        return Err(Fault::OutOfRange);
    }
    frame
        .process
        .push_bytes(kept, &[(distance + 4) as u8], b"", to)
}

// Document 01: "WHILE c b pops"
pub fn enter_while(frame: &Frame<'_>) -> Result<Step, Fault>
    ensures { Performs frame.now whiles result }
{
    let from = frame.at + 1;
    let to = from + 2;
    if frame.process.code.len() < to {
        return Err(Fault::CodeEnded);
    }
    let x = top_number(frame.process.stack, Types::AnyNumber)?;
    let c = frame.process.code[from];
    let b = frame.process.code[from + 1];
    choose_while(frame, x.below, is_zero(x.number), c, b, to)
}

// ENDWHILE takes one raw byte: only fault 5.
#[tactic(auto, unfolding(machine::specs::Effect::settle))]
pub fn end_while(frame: &Frame<'_>) -> Result<Step, Fault>
    ensures { Performs frame.now ends_while result }
{
    let n = frame.process.stack.len();
    if n < 1 {
        return Err(Fault::NothingThere);
    }
    let distance = usize::from(frame.process.stack[n - 1]);
    let from = frame.at + 1;
    if from < distance {
        return Err(Fault::OutsideCode);
    }
    frame.process.go(n - 1, from - distance)
}

// LOOP, whatever loop was marked before.
pub fn mark_loop(frame: &Frame<'_>) -> Result<Step, Fault>
    ensures { Performs frame.now marks_loop result }
{
    let from = frame.at + 1;
    let marked = Running {
        code: frame.process.code,
        stack: frame.process.stack,
        loopstart: from as u16,
    };
    marked.jump(from)
}

// ENDLOOP. Document 01: "3 jump outside 0 to the code length, or ENDLOOP with no loop"
#[tactic(auto, unfolding(machine::specs::Effect::settle))]
pub fn loop_back(frame: &Frame<'_>) -> Result<Step, Fault>
    ensures { Performs frame.now loops_back result }
{
    if frame.process.loopstart == NO_LOOP {
        return Err(Fault::OutsideCode);
    }
    frame.process.jump(usize::from(frame.process.loopstart))
}

// Operators: the guide's arithmetic, comparisons, logic and conversions, and document 02's scaling. The operands come
// off from the top, the one pushed last first; where one cannot be popped, its fault is met.
ghost use Rattle.std.specs.Prelude.{◌≡◌, ◌≤◌, length, take};
ghost use Rattle.evaluation.specs.Operating.{evaluates};
ghost use Rattle.machine.specs.Stack.{pop};
ghost use Rattle.number.specs.declared.Number.{Number};
ghost use Rattle.operator.specs.Instruction.{types_of};
ghost use Rattle.stack.specs.Frames.{Performs};
ghost use Rattle.stack.specs.Tops.{bytes_below, next_numbered, number_above, number_on, numbered};

use machine::fault::Fault;
use operator::instruction::types_of;
use operator::operators::{Binary, Operator, Scaling, Unary};
use stack::frame::Frame;
use stack::tops::{number_below, top_number};
use stack::{Step, TopNumber};

// The operand on top: which types it takes goes by operator and place, 0 that of the operand pushed first.
fn top_operand(stack: &[u8], operator: Operator, place: u8) -> Result<TopNumber, Fault>
    ensures { (number_on stack.now result ≡ numbered (pop (types_of operator place) stack.now))
        × (bytes_below result ≤ length stack.now) }
{
    top_number(stack, types_of(operator, place))
}

// The operand below the one that came off before it, which left so many bytes: whatever number that was.
fn next_operand(
    stack: &[u8],
    above: usize,
    operator: Operator,
    place: u8,
) -> Result<TopNumber, Fault>
    requires { above ≤ length stack.now }
    ensures found { (number_on stack.now result ≡ numbered (pop (types_of operator place) (take above stack.now)))
        × (bytes_below result ≤ length stack.now) }
    ensures next { (x : Number) → number_on stack.now result
        ≡ next_numbered (types_of operator place) (number_above x (take above stack.now)) }
{
    number_below(stack, above, types_of(operator, place))
}

// The answer goes onto what lies below the operand that came off last, the one pushed first.
fn operate_one(frame: &Frame<'_>, operator: Unary) -> Result<Step, Fault>
    ensures { Performs frame.now (evaluates (Operator.OfOne operator)) result }
{
    let x = top_operand(frame.process.stack, Operator::OfOne(operator), 0)?;
    let answer = operator::unary::apply(operator, x.number);
    frame.process.push_outcome(x.below, answer, frame.at + 1)
}

fn operate_two(frame: &Frame<'_>, operator: Binary) -> Result<Step, Fault>
    ensures { Performs frame.now (evaluates (Operator.OfTwo operator)) result }
{
    let y = top_operand(frame.process.stack, Operator::OfTwo(operator), 1)?;
    let x = next_operand(frame.process.stack, y.below, Operator::OfTwo(operator), 0)?;
    let answer = operator::binary::apply(operator, x.number, y.number);
    frame.process.push_outcome(x.below, answer, frame.at + 1)
}

// CONSTRAIN of x, a, b.
fn constrain(frame: &Frame<'_>) -> Result<Step, Fault>
    ensures { Performs frame.now (evaluates (Operator.Scale Scaling.Constrain)) result }
{
    let operator = Operator::Scale(Scaling::Constrain);
    let b = top_operand(frame.process.stack, operator, 2)?;
    let a = next_operand(frame.process.stack, b.below, operator, 1)?;
    let x = next_operand(frame.process.stack, a.below, operator, 0)?;
    let answer = scaling::constrain::constrain(x.number, a.number, b.number);
    frame.process.push_number(x.below, answer, frame.at + 1)
}

// MAP of a, b, c, d, e.
fn map(frame: &Frame<'_>) -> Result<Step, Fault>
    ensures { Performs frame.now (evaluates (Operator.Scale Scaling.Map)) result }
{
    let operator = Operator::Scale(Scaling::Map);
    let e = top_operand(frame.process.stack, operator, 4)?;
    let d = next_operand(frame.process.stack, e.below, operator, 3)?;
    let c = next_operand(frame.process.stack, d.below, operator, 2)?;
    let b = next_operand(frame.process.stack, c.below, operator, 1)?;
    let a = next_operand(frame.process.stack, b.below, operator, 0)?;
    let answer = scaling::map::map(a.number, b.number, c.number, d.number, e.number);
    frame.process.push_outcome(a.below, answer, frame.at + 1)
}

// POW of x, y.
fn power(frame: &Frame<'_>) -> Result<Step, Fault>
    ensures { Performs frame.now (evaluates (Operator.Scale Scaling.Power)) result }
{
    let operator = Operator::Scale(Scaling::Power);
    let y = top_operand(frame.process.stack, operator, 1)?;
    let x = next_operand(frame.process.stack, y.below, operator, 0)?;
    let answer = scaling::power::power_of(x.number, y.number);
    frame.process.push_outcome(x.below, answer, frame.at + 1)
}

fn scale(frame: &Frame<'_>, operator: Scaling) -> Result<Step, Fault>
    ensures { Performs frame.now (evaluates (Operator.Scale operator)) result }
{
    match operator {
        Scaling::Constrain => constrain(frame),
        Scaling::Map => map(frame),
        Scaling::Power => power(frame),
    }
}

#[tactic(auto, unfolding(machine::specs::Effect::operates))]
pub fn operate(frame: &Frame<'_>, operator: Operator) -> Result<Step, Fault>
    ensures { Performs frame.now (evaluates operator) result }
{
    match operator {
        Operator::OfOne(o) => operate_one(frame, o),
        Operator::OfTwo(o) => operate_two(frame, o),
        Operator::Scale(o) => scale(frame, o),
    }
}

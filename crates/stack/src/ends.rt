// The end of an instruction: a fault, or on to a place with what is pushed, printed, assigned or asked.
ghost use Rattle.std.specs.Prelude.{◌≡◌};
ghost use Rattle.stack.specs.Steps.{last_step};

use crate::frame::Running;
use crate::{Action, STRING_KIND, Step};
use machine::fault::Fault;
use machine::limits::STACK_SIZE;
use number::Number;
use operator::Outcome;

impl Step {
    // Of an instruction that ends its process.
    pub fn last(action: Action) -> Step
        ensures { result ≡ last_step action }
    {
        Step {
            action,
            kept: 0,
            bytes: [0u8; STACK_SIZE],
            len: 0,
            pc: 0,
            loopstart: 0,
        }
    }
}

impl Running<'_> {
    ghost use Rattle.std.specs.Prelude.{[], ◌++◌, ◌≡◌, ◌+◌, ◌≤◌, length, take};
    ghost use Rattle.buffer.specs.Buffer.{part};
    ghost use Rattle.machine.specs.Effect.{with_outcome};
    ghost use Rattle.machine.specs.Limits.{stack_size};
    ghost use Rattle.machine.specs.Stack.{push, push_item};
    ghost use Rattle.number.specs.Value.{type_of, value_bytes};
    ghost use Rattle.stack.specs.Frames.{lands};
    ghost use Rattle.stack.specs.Ready.{max_code};
    ghost use Rattle.stack.specs.Steps.{Does, Means, effect_by, placed, step_of};

    // An action about these bytes, those of head and then those of tail.
    pub fn step(&self, action: Action, kept: usize, head: &[u8], tail: &[u8], pc: usize) -> Step
        requires { (kept ≤ stack_size) × (length head.now + length tail.now ≤ stack_size) × (pc ≤ max_code) }
        ensures { (result ≡ step_of action kept (head.now ++ tail.now) pc self.now.loopstart)
            × (result.len ≤ stack_size) }
    {
        let mut bytes = [0u8; STACK_SIZE];
        buffer::bytes::overwrite_at(&mut bytes, 0, head);
        buffer::bytes::overwrite_at(&mut bytes, head.len(), tail);
        Step {
            action,
            kept: kept as u8,
            bytes,
            len: (head.len() + tail.len()) as u8,
            pc: pc as u16,
            loopstart: self.loopstart,
        }
    }

    // An action about bytes that lie on the stack, with what lies below them kept.
    pub fn act_on(&self, action: Action, place: usize, len: usize, pc: usize) -> Step
        requires { (place + len ≤ length self.now.stack.now) × (pc ≤ max_code) }
        ensures { Does self.now.stack.now result (effect_by action self.now.stack.now
            (part self.now.stack.now place len) (placed (take place self.now.stack.now) pc self.now.loopstart)) }
    {
        let end = place + len;
        self.step(action, place, &self.stack[place..end], b"", pc)
    }

    // An action about no bytes that leaves the stack as it is.
    pub fn act(&self, action: Action, pc: usize) -> Step
        requires { pc ≤ max_code }
        ensures { Does self.now.stack.now result (effect_by action self.now.stack.now []
            (placed self.now.stack.now pc self.now.loopstart)) }
    {
        self.act_on(action, self.stack.len(), 0, pc)
    }

    // On to a place with the first `kept` bytes of the stack and these above them.
    // Document 01, tried last: "4 stack above 32; 3 jump outside 0 to the code length"
    #[tactic(auto, unfolding(machine::specs::Effect::settle))]
    pub fn push_bytes(
        &self,
        kept: usize,
        head: &[u8],
        tail: &[u8],
        to: usize,
    ) -> Result<Step, Fault>
        requires { (kept ≤ length self.now.stack.now) × (length head.now + length tail.now ≤ max_code) }
        ensures { Means self.now.stack.now result (lands self.now to
            (take kept self.now.stack.now ++ head.now ++ tail.now)) }
    {
        if STACK_SIZE < kept + head.len() + tail.len() {
            return Err(Fault::StackFull);
        }
        if self.code.len() < to {
            return Err(Fault::OutsideCode);
        }
        Ok(self.step(Action::Push, kept, head, tail, to))
    }

    // On to a place with the first `kept` bytes of the stack.
    pub fn go(&self, kept: usize, to: usize) -> Result<Step, Fault>
        requires { kept ≤ length self.now.stack.now }
        ensures { Means self.now.stack.now result (lands self.now to (take kept self.now.stack.now)) }
    {
        self.push_bytes(kept, b"", b"", to)
    }

    // On to a place with the stack as it is.
    pub fn jump(&self, to: usize) -> Result<Step, Fault>
        ensures { Means self.now.stack.now result (lands self.now to self.now.stack.now) }
    {
        self.go(self.stack.len(), to)
    }

    // A value onto the stack: its bytes, a string's length, its type.
    #[tactic(auto, unfolding(machine::specs::Effect::settle))]
    pub fn push_item(&self, kept: usize, kind: u8, bytes: &[u8], to: usize) -> Result<Step, Fault>
        requires { kept ≤ length self.now.stack.now }
        ensures { Means self.now.stack.now result (lands self.now to
            (push_item (take kept self.now.stack.now) kind bytes.now)) }
    {
        if STACK_SIZE < bytes.len() {
            return Err(Fault::StackFull);
        }
        if kind == STRING_KIND {
            return self.push_bytes(kept, bytes, &[bytes.len() as u8, STRING_KIND], to);
        }
        self.push_bytes(kept, bytes, &[kind], to)
    }

    pub fn push_number(&self, kept: usize, a: Number, to: usize) -> Result<Step, Fault>
        requires { kept ≤ length self.now.stack.now }
        ensures { Means self.now.stack.now result (lands self.now to
            (push (take kept self.now.stack.now) (type_of a) (value_bytes a))) }
    {
        let encoded = number::value::encode(a);
        self.push_item(kept, encoded.kind, encoded.as_slice(), to)
    }

    // What an operator answers goes onto the stack, or is a fault.
    pub fn push_outcome(&self, kept: usize, outcome: Outcome, to: usize) -> Result<Step, Fault>
        requires { kept ≤ length self.now.stack.now }
        ensures { Means self.now.stack.now result (with_outcome outcome (λ a. lands self.now to
            (push (take kept self.now.stack.now) (type_of a) (value_bytes a)))) }
    {
        let a = outcome?;
        self.push_number(kept, a, to)
    }
}

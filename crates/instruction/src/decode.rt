// Which byte is which instruction.
ghost use Rattle.std.specs.Prelude.{◌≡◌};
ghost use Rattle.machine.specs.Instruction.{find, instruction_of, others};

use machine::instruction::{Instruction, Reach};

#[tactic(auto, unfolding(machine::specs::Instruction::find))]
fn other(n: u8) -> Instruction
    ensures { result ≡ find n others }
{
    match n {
        1 => Instruction::Literal(1),
        2 => Instruction::Literal(2),
        3 => Instruction::StringLiteral,
        4 => Instruction::Literal(4),
        5 => Instruction::SetVariable,
        6 => Instruction::GetVariable,
        44 => Instruction::DelayUntil,
        45 => Instruction::Millis,
        51 => Instruction::Print(false),
        52 => Instruction::Print(true),
        53 => Instruction::Beyond(Reach::OpenFile),
        54 => Instruction::Beyond(Reach::CloseFile),
        55 => Instruction::Beyond(Reach::WriteFile),
        56 => Instruction::Beyond(Reach::ReadNumber(2)),
        57 => Instruction::Beyond(Reach::ReadNumber(1)),
        58 => Instruction::Beyond(Reach::ReadNumber(4)),
        59 => Instruction::Beyond(Reach::ReadString),
        60 => Instruction::JumpIf(true),
        61 => Instruction::JumpIf(false),
        62 => Instruction::EndIf,
        63 => Instruction::While,
        64 => Instruction::EndWhile,
        65 => Instruction::Loop,
        66 => Instruction::EndLoop,
        67 => Instruction::Stop,
        68 => Instruction::Beyond(Reach::Fork),
        69 => Instruction::Beyond(Reach::WaitUntilDone),
        _ => Instruction::Unknown,
    }
}

// Document 01: "Numbered 1 to 69 by place in appendix C"
#[tactic(auto, unfolding(machine::specs::Instruction::instruction_of))]
pub fn instruction(n: u8) -> Instruction
    ensures { result ≡ instruction_of n }
{
    match operator::instruction::operator(n) {
        Some(o) => Instruction::Operate(o),
        None => other(n),
    }
}

// The instructions. Document 01: "Numbered 1 to 69 by place in appendix C"; specs/Instruction.antt has the numbers.
use operator::operators::Operator;

// Those that reach beyond the process: files and other processes.
#[derive(Clone, Copy)]
pub enum Reach {
    OpenFile,
    CloseFile,
    WriteFile,
    // READCHAR, READINT, READFLOAT by the type read
    ReadNumber(u8),
    ReadString,
    Fork,
    WaitUntilDone,
}

#[derive(Clone, Copy)]
pub enum Instruction {
    // CHAR, INT, FLOAT: push as many argument bytes as the type says
    Literal(u8),
    StringLiteral,
    SetVariable,
    GetVariable,
    Operate(Operator),
    DelayUntil,
    Millis,
    // PRINT, and PRINTLN with a newline
    Print(bool),
    // IF jumps on zero, ELSE on not zero
    JumpIf(bool),
    EndIf,
    While,
    EndWhile,
    Loop,
    EndLoop,
    Stop,
    Beyond(Reach),
    Unknown,
}

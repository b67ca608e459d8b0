// The faults that end a process. Document 01 numbers them; specs/Fault.antt has its table.
ghost use Rattle.std.specs.Prelude.{◌≡◌, Err};
ghost use Rattle.machine.specs.Fault.{fault_number};
ghost use Rattle.operator.specs.Outcome.{fault_of};

use operator::ArithmeticError;

// Document 01: "fault (0 unless a fault)"
pub const NO_FAULT: u8 = 0;

#[derive(Clone, Copy, Debug, PartialEq, Eq)]
pub enum Fault {
    NoInstruction = 1,
    CodeEnded = 2,
    // a jump outside the code, or ENDLOOP with no loop
    OutsideCode = 3,
    StackFull = 4,
    NothingThere = 5,
    // a type not taken there, or a malformed string
    WrongType = 6,
    DivisionByZero = 7,
    OutOfRange = 8,
    NoVariable = 9,
    // no variable entry or no run
    NoPlace = 10,
    NoOpenFile = 11,
    PastEnd = 12,
    FileRefused = 13,
}

impl Fault {
    pub fn number(self) -> u8
        ensures { result ≡ fault_number self }
    {
        self as u8
    }
}

// Document 01: "7 whole divisor zero; 8 conversion of NaN or to a whole outside the type's range, negative whole root"
impl From<ArithmeticError> for Fault {
    ghost from_gives = { λ error fault. fault_number fault ≡ fault_of (Err error) };

    fn from(error: ArithmeticError) -> Fault {
        match error {
            ArithmeticError::DivisionByZero => Fault::DivisionByZero,
            ArithmeticError::OutOfRange => Fault::OutOfRange,
        }
    }
}

//! Why an instruction fails.
ghost use Rattle.std.specs.Prelude.{Some};
ghost use Rattle.vm_num.specs.Failure.{failure_name};

use std::fmt;

/// Why a run of the machine failed. What each means for an instruction stands in the code table (docs/FORMATS.md).
#[derive(Clone, Copy, Debug, PartialEq, Eq)]
pub enum Failure {
    /// The run limit does not cover the instruction.
    RunLimit,
    /// The data stack has too few items.
    Underflow,
    /// The alt stack is empty.
    AltUnderflow,
    /// An item of more than 8 bytes stands where a number is wanted.
    BadNumber,
    /// A result is not a 64-bit number.
    Range,
    /// A divisor is zero.
    DivZero,
    /// No instruction has this code.
    BadOpcode,
    /// The program ends inside the instruction.
    Short,
    /// A jump leads past the program's end.
    BadJump,
    /// A `VERIFY` met an item that is false.
    VerifyFalse,
    /// The program failed on purpose.
    FailCode,
    /// The instruction asks for what is not there in this context.
    Context,
    /// A count or a place is out of range.
    BadValue,
    /// The program ended without a true item on top.
    FalseResult,
}

impl fmt::Display for Failure {
    ghost output = { λ f. Some (failure_name f) };

    fn fmt<W: fmt::Write>(&self, f: &mut fmt::Formatter<W>) -> fmt::Result {
        match self {
            Failure::RunLimit => write!(f, "RunLimit"),
            Failure::Underflow => write!(f, "Underflow"),
            Failure::AltUnderflow => write!(f, "AltUnderflow"),
            Failure::BadNumber => write!(f, "BadNumber"),
            Failure::Range => write!(f, "Range"),
            Failure::DivZero => write!(f, "DivZero"),
            Failure::BadOpcode => write!(f, "BadOpcode"),
            Failure::Short => write!(f, "Short"),
            Failure::BadJump => write!(f, "BadJump"),
            Failure::VerifyFalse => write!(f, "VerifyFalse"),
            Failure::FailCode => write!(f, "FailCode"),
            Failure::Context => write!(f, "Context"),
            Failure::BadValue => write!(f, "BadValue"),
            Failure::FalseResult => write!(f, "FalseResult"),
        }
    }
}

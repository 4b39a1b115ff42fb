//! Type faults and their kinds.
ghost use Rattle.std.specs.Prelude.{◌≡◌};
ghost use Rattle.ivy_check.specs.Tests.{fault, first_of};
ghost use Rattle.ivy_check.specs.Walk.{kind_number, reported};

/// Why a source is refused.
#[derive(Clone, Copy, Debug, PartialEq, Eq)]
pub enum TypeFault {
    /// The first type fault of the source: its place, in bytes from the text's start, and its kind, from 1 to 18.
    At { at: u64, kind: u8 },
    /// Memory ran out.
    NoMemory,
}

/// The kinds of type faults, in the order of their numbers.
#[derive(Clone, Copy)]
pub(crate) enum Kind {
    ContractTwice = 1,
    /// Among the parameters of a contract, its value, and the parameters and required values of a clause.
    NameTwice,
    ClauseTwice,
    /// A declared name is a type's or a function's.
    Reserved,
    UnknownType,
    UnknownName,
    UnknownFunction,
    ArgumentCount,
    /// The wrong type of an argument, or a list elsewhere.
    WrongArgument,
    /// The wrong type of an operand, or of a side of a requirement.
    WrongOperand,
    /// What is verified is no Boolean.
    NotBoolean,
    /// A lock is not with a Program.
    NotProgram,
    /// What is locked or unlocked is no value.
    NoValue,
    /// A value stands as an expression.
    ValueUsed,
    RequiredUnlocked,
    DisposedTwice,
    ValueLeft,
    /// A parameter is not used.
    Unused,
}

/// The first type fault of a part of a source.
#[derive(Clone, Copy)]
pub(crate) struct Fault {
    pub(crate) at: u64,
    pub(crate) kind: Kind,
}

impl Kind {
    /// Its number, from 1 to 18.
    pub(crate) fn number(self) -> u8
        ensures { result ≡ kind_number self }
    {
        self as u8
    }
}

/// A fault of this kind stands at this place where that holds.
pub(crate) fn refuse_if(holds: bool, kind: Kind, at: u64) -> Result<(), Fault>
    ensures { reported result ≡ first_of (fault (kind_number kind) at holds) }
{
    if holds {
        Err(Fault { at, kind })
    } else {
        Ok(())
    }
}

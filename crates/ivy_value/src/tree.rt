//! Core: expressions as small trees without lists of expressions, and what contracts do over them.
ghost use Rattle.std.specs.Prelude.{◌≡◌};

use ivy_check::Params;
use ivy_syntax::Text;
use std::boxed::Box;
use wire::Listed;

/// A place among the arguments.
#[derive(Clone, Copy, Debug, PartialEq, Eq)]
pub enum Place {
    /// Among those of the contract, in the order of its parameters.
    Held(usize),
    /// Among those of the clause.
    Given(usize),
}

/// Places, in order.
pub type Places = Listed<Place>;

/// An operation on one value.
#[derive(Clone, Copy, Debug, PartialEq, Eq)]
pub enum UnaryOp {
    /// The number with the other sign.
    Negate,
    /// The number without its sign.
    Abs,
    /// The opposite of the truth of its bytes.
    Not,
    /// How many bytes it has.
    Size,
    /// The hash of its bytes.
    Sha256,
    /// The transaction's greatest time is less.
    Before,
    /// The transaction's least time is greater.
    After,
}

/// An operation on two values, the one that stands first in the text first.
#[derive(Clone, Copy, Debug, PartialEq, Eq)]
pub enum BinaryOp {
    Add,
    Sub,
    Mul,
    Div,
    Rem,
    ShiftLeft,
    ShiftRight,
    Min,
    Max,
    Less,
    LessEqual,
    Greater,
    GreaterEqual,
    /// `==` and `!=`, of numbers.
    SameNumber,
    OtherNumber,
    /// Of truth values.
    SameTruth,
    OtherTruth,
    /// Byte by byte.
    SameBytes,
    OtherBytes,
    And,
    Or,
    /// The bytes of both.
    Concat,
    /// The bytes of the first, and the push of the second.
    ConcatPush,
}

/// An expression.
#[derive(Debug, Drop)]
pub enum Core {
    /// The argument for a parameter.
    Param(Place),
    Bytes(Text),
    /// A number, at most 2^63 - 1.
    Number(u64),
    Truth(bool),
    Unary {
        op: UnaryOp,
        arg: Box<Core>,
    },
    Binary {
        op: BinaryOp,
        left: Box<Core>,
        right: Box<Core>,
    },
    /// The signature is good for the key.
    Signed {
        key: Place,
        sig: Place,
    },
    /// The signatures are good for some of the keys, in their order.
    MultiSigned {
        keys: Places,
        sigs: Places,
    },
}

/// What a lock disposes of.
#[derive(Debug, Drop)]
pub enum CoreWorth {
    /// The value of the input.
    Locked,
    /// An amount of an asset that the clause requires.
    Required { amount: Core, asset: Core },
}

/// What a clause does.
#[derive(Debug, Drop)]
pub enum CoreStep {
    /// The value is true.
    Verify(Core),
    /// The next output has this worth and this program.
    Lock { worth: CoreWorth, program: Core },
}

/// What a clause does, in order.
pub type CoreSteps = Listed<CoreStep>;

/// A clause of a contract: its parameters, and what it does.
#[derive(Debug, Drop)]
pub struct CoreClause {
    pub given: Params,
    pub steps: CoreSteps,
}

/// The clauses of a contract, in order.
pub type CoreClauses = Listed<CoreClause>;

/// A contract: its parameters and its clauses.
#[derive(Debug, Drop)]
pub struct CoreContract {
    pub held: Params,
    pub clauses: CoreClauses,
}

/// Contracts, in order.
pub type CoreContracts = Listed<CoreContract>;

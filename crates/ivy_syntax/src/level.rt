//! The levels of expressions, and the operators that join operands of each.

ghost use Rattle.std.specs.Prelude.{◌≡◌};
ghost use Rattle.ivy_syntax.specs.Grammar.{below, rank, binary};

use crate::lexeme::Operator;
use crate::tree::Op;

/// A level of expressions. The first binds least.
#[derive(Clone, Copy, PartialEq)]
pub(crate) enum Level {
    Or,
    And,
    Comparison,
    Shift,
    Sum,
    Term,
    Unary,
}

impl Level {
    /// The next level, which binds more.
    pub(crate) fn below(self) -> Level
        ensures { result ≡ below self }
    {
        match self {
            Level::Or => Level::And,
            Level::And => Level::Comparison,
            Level::Comparison => Level::Shift,
            Level::Shift => Level::Sum,
            Level::Sum => Level::Term,
            Level::Term | Level::Unary => Level::Unary,
        }
    }

    /// How strongly it binds.
    pub(crate) fn rank(self) -> u8
        ensures { result ≡ rank self }
    {
        match self {
            Level::Or => 1,
            Level::And => 2,
            Level::Comparison => 3,
            Level::Shift => 4,
            Level::Sum => 5,
            Level::Term => 6,
            Level::Unary => 7,
        }
    }
}

impl Operator {
    /// The level of which it joins operands, and the operator of the tree that it is there.
    pub(crate) fn binary(self) -> Option<(Level, Op)>
        ensures { result ≡ binary self }
    {
        let (level, op) = match self {
            Operator::Or => (Level::Or, Op::Or),
            Operator::And => (Level::And, Op::And),
            Operator::Equal => (Level::Comparison, Op::Equal),
            Operator::NotEqual => (Level::Comparison, Op::NotEqual),
            Operator::Less => (Level::Comparison, Op::Less),
            Operator::LessEqual => (Level::Comparison, Op::LessEqual),
            Operator::Greater => (Level::Comparison, Op::Greater),
            Operator::GreaterEqual => (Level::Comparison, Op::GreaterEqual),
            Operator::ShiftLeft => (Level::Shift, Op::ShiftLeft),
            Operator::ShiftRight => (Level::Shift, Op::ShiftRight),
            Operator::Plus => (Level::Sum, Op::Add),
            Operator::Minus => (Level::Sum, Op::Sub),
            Operator::Star => (Level::Term, Op::Mul),
            Operator::Slash => (Level::Term, Op::Div),
            Operator::Percent => (Level::Term, Op::Rem),
            Operator::Not => return None,
        };
        Some((level, op))
    }
}

//! Which operands and arguments an operation or a function takes, and the type of what it gives.
ghost use Rattle.std.specs.Prelude.{◌≡◌};
ghost use Rattle.ivy_check.specs.Expressions.{of_type, number_literal, list_of, is_list, member_count, coerced};
ghost use Rattle.ivy_check.specs.Expressions.{coerced_beside};
ghost use Rattle.ivy_check.specs.Expressions.{are_of_one_type, are_numeric, are_booleans, takes_operand, unary_result};
ghost use Rattle.ivy_check.specs.Expressions.{takes_operands, binary_type, fits_param, member_type, agree};
ghost use Rattle.ivy_check.specs.Expressions.{has_enough_keys, result_of_one, result_of_two, is_member};
ghost use Rattle.ivy_check.specs.Walk.{inferred_of};

use crate::functions::{Function, ParamType};
use crate::inferred::{Inferred, has_numeric_type, has_plain_type, has_type, have_one_type};
use crate::types::IvyType;
use ivy_syntax::Op;

impl ParamType {
    /// The type of the members of a list, where the parameter is one.
    pub(crate) fn member_type(self) -> Option<IvyType>
        ensures { result ≡ member_type self }
    {
        match self {
            ParamType::ListOf(each) => Some(each),
            _ => None,
        }
    }
}

impl Inferred {
    /// What is no number and no list, and has this type.
    pub(crate) fn of_type(ivy_type: Option<IvyType>) -> Inferred
        ensures { inferred_of result ≡ of_type ivy_type }
    {
        Inferred {
            is_literal: false,
            members: None,
            ivy_type,
        }
    }

    /// A number, which is an Integer by itself.
    pub(crate) fn number() -> Inferred
        ensures { inferred_of result ≡ number_literal }
    {
        Inferred {
            is_literal: true,
            members: None,
            ivy_type: Some(IvyType::Integer),
        }
    }

    /// A list of so many members.
    pub(crate) fn list(members: usize) -> Inferred
        ensures { inferred_of result ≡ list_of members }
    {
        Inferred {
            is_literal: false,
            members: Some(members),
            ivy_type: None,
        }
    }

    /// It is a list.
    #[tactic(auto, unfolding(crate::specs::Expressions::is_list))]
    pub(crate) fn is_list(self) -> bool
        ensures { result ≡ is_list (inferred_of self) }
    {
        self.members.is_some()
    }

    // How many members it has.
    fn member_count(self) -> usize
        ensures { result ≡ member_count (inferred_of self) }
    {
        self.members.unwrap_or(0)
    }

    /// The type that it has beside another operand: a number takes the other's type, where that is numeric and no
    /// number too.
    pub(crate) fn coerced_beside(self, other: Inferred) -> Option<IvyType>
        ensures { result ≡ coerced_beside (inferred_of other) (inferred_of self) }
    {
        if self.is_literal && !other.is_literal && has_numeric_type(other.ivy_type) {
            other.ivy_type
        } else {
            self.ivy_type
        }
    }

    /// The type that it has where this one is expected: a number takes it, where it is numeric.
    pub(crate) fn coerced(self, expected: IvyType) -> Option<IvyType>
        ensures { result ≡ coerced expected (inferred_of self) }
    {
        if self.is_literal && expected.is_numeric() {
            Some(expected)
        } else {
            self.ivy_type
        }
    }

    /// A member of a list is no list, and of this type, if one is expected.
    pub(crate) fn is_member(self, each: Option<IvyType>) -> bool
        ensures { result ≡ is_member each (inferred_of self) }
    {
        match each {
            Some(expected) => has_type(expected, self.ivy_type),
            None => !self.is_list(),
        }
    }

    /// It is an argument for such a parameter.
    pub(crate) fn fits_param(self, param: ParamType) -> bool
        ensures { result ≡ fits_param param (inferred_of self) }
    {
        match param {
            ParamType::Exactly(expected) => has_type(expected, self.coerced(expected)),
            ParamType::Numeric => has_numeric_type(self.ivy_type),
            ParamType::Plain => has_plain_type(self.ivy_type),
            ParamType::Any => !self.is_list(),
            ParamType::ListOf(_) => self.is_list(),
        }
    }
}

/// Two of one type.
pub(crate) fn are_of_one_type(left: Inferred, right: Inferred) -> bool
    ensures { result ≡ are_of_one_type (inferred_of left) (inferred_of right) }
{
    have_one_type(left.coerced_beside(right), right.coerced_beside(left))
}

fn are_numeric(left: Inferred, right: Inferred) -> bool
    ensures { result ≡ are_numeric (inferred_of left) (inferred_of right) }
{
    are_of_one_type(left, right) && has_numeric_type(left.coerced_beside(right))
}

fn are_booleans(left: Inferred, right: Inferred) -> bool
    ensures { result ≡ are_booleans (inferred_of left) (inferred_of right) }
{
    has_type(IvyType::Boolean, left.ivy_type) && has_type(IvyType::Boolean, right.ivy_type)
}

/// `!` takes a Boolean, and `-` what is numeric. No other operator stands before an operand.
pub(crate) fn takes_operand(op: Op, inferred: Inferred) -> bool
    ensures { result ≡ takes_operand op (inferred_of inferred) }
{
    match op {
        Op::Not => has_type(IvyType::Boolean, inferred.ivy_type),
        Op::Negate => has_numeric_type(inferred.ivy_type),
        _ => false,
    }
}

/// What an operation of one operand is.
pub(crate) fn unary_result(op: Op, inferred: Inferred) -> Inferred
    ensures { inferred_of result ≡ unary_result op (inferred_of inferred) }
{
    match op {
        Op::Not => Inferred::of_type(Some(IvyType::Boolean)),
        Op::Negate => Inferred {
            members: None,
            ..inferred
        },
        _ => Inferred::of_type(None),
    }
}

/// An operation takes these operands. No `!` and no sign stands between operands.
pub(crate) fn takes_operands(op: Op, left: Inferred, right: Inferred) -> bool
    ensures { result ≡ takes_operands op (inferred_of left) (inferred_of right) }
{
    match op {
        Op::Or | Op::And => are_booleans(left, right),
        Op::Equal | Op::NotEqual => are_of_one_type(left, right),
        Op::Not | Op::Negate => false,
        _ => are_numeric(left, right),
    }
}

/// The type of an operation of these operands.
pub(crate) fn binary_type(op: Op, left: Inferred, right: Inferred) -> Option<IvyType>
    ensures { result ≡ binary_type op (inferred_of left) (inferred_of right) }
{
    match op {
        Op::Or
        | Op::And
        | Op::Equal
        | Op::NotEqual
        | Op::Less
        | Op::LessEqual
        | Op::Greater
        | Op::GreaterEqual => Some(IvyType::Boolean),
        _ => left.coerced_beside(right),
    }
}

/// The arguments of `min` and of `max` have one type.
pub(crate) fn agree(function: Function, first: Inferred, second: Inferred) -> bool
    ensures { result ≡ agree function (inferred_of first) (inferred_of second) }
{
    match function {
        Function::Min | Function::Max => are_of_one_type(first, second),
        _ => true,
    }
}

/// Of keys and signatures there are no more signatures.
pub(crate) fn has_enough_keys(function: Function, keys: Inferred, sigs: Inferred) -> bool
    ensures { result ≡ has_enough_keys function (inferred_of keys) (inferred_of sigs) }
{
    match function {
        Function::CheckTxMultiSig => keys.member_count() >= sigs.member_count(),
        _ => true,
    }
}

/// The type of what a function gives for one argument.
pub(crate) fn result_of_one(function: Function, inferred: Inferred) -> Option<IvyType>
    ensures { result ≡ result_of_one function (inferred_of inferred) }
{
    match function {
        Function::Abs => inferred.ivy_type,
        Function::Size => Some(IvyType::Integer),
        Function::BytesOf => Some(IvyType::String),
        Function::Sha256 => Some(IvyType::Hash),
        Function::Before | Function::After => Some(IvyType::Boolean),
        _ => None,
    }
}

/// The type of what a function gives for two arguments.
pub(crate) fn result_of_two(
    function: Function,
    first: Inferred,
    second: Inferred,
) -> Option<IvyType>
    ensures { result ≡ result_of_two function (inferred_of first) (inferred_of second) }
{
    match function {
        Function::Min | Function::Max => first.coerced_beside(second),
        Function::Concat | Function::ConcatPush => Some(IvyType::String),
        Function::CheckTxSig | Function::CheckTxMultiSig => Some(IvyType::Boolean),
        _ => None,
    }
}

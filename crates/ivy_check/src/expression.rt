//! The typing of expressions.
ghost use Rattle.std.specs.Prelude.{◌≡◌, not, length, map};
ghost use Rattle.ivy_check.specs.Tests.{fault, first_of};
ghost use Rattle.ivy_check.specs.Functions.{function_named};
ghost use Rattle.ivy_check.specs.Scope.{name_type};
ghost use Rattle.ivy_check.specs.Expressions.{of_type, list_of, unary_result, binary_type, result_of_one};
ghost use Rattle.ivy_check.specs.Expressions.{result_of_two};
ghost use Rattle.ivy_check.specs.Expressions.{takes_operand, takes_operands, typing, name_tests, operand_tests};
ghost use Rattle.ivy_check.specs.Expressions.{whole_tests, member_tests, list_tests, argument_tests, both_tests};
ghost use Rattle.ivy_check.specs.Expressions.{call_tests, call_type};
ghost use Rattle.ivy_check.specs.Scope.{scope_of};
ghost use Rattle.ivy_check.specs.Walk.{reported, inferred_of, Infers};

use crate::fault::{Fault, Kind, refuse_if};
use crate::functions::{Function, ParamType, ParamTypes};
use crate::inferred::Inferred;
use crate::operators::{
    agree, binary_type, has_enough_keys, result_of_one, result_of_two, takes_operand,
    takes_operands, unary_result,
};
use crate::scope::Scope;
use crate::types::IvyType;
use ivy_syntax::{Expr, Form, Op};

// A name that is used.
fn named(scope: Scope, name: &[u8], at: u64) -> Result<Inferred, Fault>
    ensures fault { reported result ≡ first_of (name_tests (scope_of scope.entry) name.now at) }
    ensures inferred { Infers result (of_type (name_type (scope_of scope.entry) name.now)) }
{
    let is_value = scope.is_value(name);
    refuse_if(
        !is_value && !scope.names_parameter(name),
        Kind::UnknownName,
        at,
    )?;
    refuse_if(is_value, Kind::ValueUsed, at)?;
    Ok(Inferred::of_type(scope.name_type(name)))
}

// What is inferred of an expression by itself, or the first of its faults. A list may have members of this type, or of
// any.
#[cycle(expression)]
#[tactic(auto, using(crate::proofs::TypingLemmas::walking), unfolding(crate::specs::Expressions::typing))]
pub(crate) fn expression(scope: Scope, e: &Expr, each: Option<IvyType>) -> Result<Inferred, Fault>
    ensures fault { reported result ≡ first_of ((typing (scope_of scope.entry) e.now).tests each) }
    ensures inferred { Infers result (typing (scope_of scope.entry) e.now).inferred }
{
    match &e.form {
        Form::Number(_) => Ok(Inferred::number()),
        Form::Truth(_) => Ok(Inferred::of_type(Some(IvyType::Boolean))),
        Form::Hex(_) | Form::Quoted(_) => Ok(Inferred::of_type(Some(IvyType::String))),
        Form::Name(name) => named(scope, name.as_slice(), e.at),
        Form::Call { name, args } => call(scope, name.as_slice(), e.at, args.as_slice()),
        Form::Members(members) => list(scope, members.as_slice(), each),
        Form::Unary { op, arg } => {
            let inferred = operand(scope, arg.get())?;
            unary(*op, e.at, inferred)
        }
        Form::Binary { op, left, right } => {
            let first = operand(scope, left.get())?;
            let second = operand(scope, right.get())?;
            binary(*op, e.at, first, second)
        }
    }
}

fn unary(op: Op, at: u64, inferred: Inferred) -> Result<Inferred, Fault>
    ensures fault { reported result ≡ first_of (fault 10 at (not (takes_operand op (inferred_of inferred)))) }
    ensures inferred { Infers result (unary_result op (inferred_of inferred)) }
{
    refuse_if(!takes_operand(op, inferred), Kind::WrongOperand, at)?;
    Ok(unary_result(op, inferred))
}

fn binary(op: Op, at: u64, left: Inferred, right: Inferred) -> Result<Inferred, Fault>
    ensures fault { reported result
        ≡ first_of (fault 10 at (not (takes_operands op (inferred_of left) (inferred_of right)))) }
    ensures inferred { Infers result (of_type (binary_type op (inferred_of left) (inferred_of right))) }
{
    refuse_if(!takes_operands(op, left, right), Kind::WrongOperand, at)?;
    Ok(Inferred::of_type(binary_type(op, left, right)))
}

// An operand, which is no list.
#[cycle(expression)]
#[tactic(auto, using(crate::proofs::TypingLemmas::walking))]
fn operand(scope: Scope, e: &Expr) -> Result<Inferred, Fault>
    ensures fault { reported result ≡ first_of (operand_tests (typing (scope_of scope.entry) e.now)) }
    ensures inferred { Infers result (typing (scope_of scope.entry) e.now).inferred }
{
    let inferred = expression(scope, e, None)?;
    refuse_if(inferred.is_list(), Kind::WrongArgument, e.at)?;
    Ok(inferred)
}

/// A whole expression, which is no list.
#[tactic(auto, using(crate::proofs::TypingLemmas::walking))]
pub(crate) fn whole_expression(scope: Scope, e: &Expr) -> Result<Inferred, Fault>
    ensures fault { reported result ≡ first_of (whole_tests (typing (scope_of scope.entry) e.now)) }
    ensures inferred { Infers result (typing (scope_of scope.entry) e.now).inferred }
{
    let inferred = expression(scope, e, None)?;
    refuse_if(inferred.is_list(), Kind::WrongArgument, e.from)?;
    Ok(inferred)
}

// The members of a list, which are of this type, or of any.
#[cycle(expression)]
#[tactic(auto, using(crate::proofs::TypingLemmas::walking))]
fn list(scope: Scope, members: &[Expr], each: Option<IvyType>) -> Result<Inferred, Fault>
    ensures fault { reported result ≡ first_of (list_tests each (map (typing (scope_of scope.entry)) members.now)) }
    ensures inferred { Infers result (list_of (length members.now)) }
{
    for e in members {
        member(scope, e, each)?;
    }
    Ok(Inferred::list(members.len()))
}

#[cycle(expression)]
#[tactic(auto, using(crate::proofs::TypingLemmas::walking))]
fn member(scope: Scope, e: &Expr, each: Option<IvyType>) -> Result<(), Fault>
    ensures { reported result ≡ first_of (member_tests each (typing (scope_of scope.entry) e.now)) }
{
    let inferred = expression(scope, e, None)?;
    refuse_if(!inferred.is_member(each), Kind::WrongArgument, e.from)
}

#[cycle(expression)]
#[tactic(auto, using(crate::proofs::TypingLemmas::walking))]
fn call(scope: Scope, name: &[u8], at: u64, args: &[Expr]) -> Result<Inferred, Fault>
    ensures fault { reported result ≡ first_of (call_tests (function_named name.now) at
        (map (typing (scope_of scope.entry)) args.now)) }
    ensures inferred { Infers result (of_type (call_type (function_named name.now)
        (map (typing (scope_of scope.entry)) args.now))) }
{
    let Some(function) = Function::named(name) else {
        return Err(Fault {
            at,
            kind: Kind::UnknownFunction,
        });
    };
    match (function.param_types(), args) {
        (ParamTypes::One(param), [e]) => {
            let inferred = argument(scope, param, e)?;
            Ok(Inferred::of_type(result_of_one(function, inferred)))
        }
        (ParamTypes::Two(v, w), [a, b]) => {
            let first = argument(scope, v, a)?;
            let second = argument(scope, w, b)?;
            call_of_two(function, at, b.from, first, second)
        }
        _ => Err(Fault {
            at,
            kind: Kind::ArgumentCount,
        }),
    }
}

// A call of two arguments, each of which fits its parameter. The second has this first byte.
fn call_of_two(
    function: Function,
    at: u64,
    from: u64,
    first: Inferred,
    second: Inferred,
) -> Result<Inferred, Fault>
    ensures fault { reported result ≡ first_of (both_tests function at from
        (inferred_of first) (inferred_of second)) }
    ensures inferred { Infers result (of_type (result_of_two function (inferred_of first) (inferred_of second))) }
{
    refuse_if(!agree(function, first, second), Kind::WrongArgument, from)?;
    refuse_if(
        !has_enough_keys(function, first, second),
        Kind::ArgumentCount,
        at,
    )?;
    Ok(Inferred::of_type(result_of_two(function, first, second)))
}

// An argument, with its type.
#[cycle(expression)]
#[tactic(auto, using(crate::proofs::TypingLemmas::walking))]
fn argument(scope: Scope, param: ParamType, e: &Expr) -> Result<Inferred, Fault>
    ensures fault { reported result ≡ first_of (argument_tests param (typing (scope_of scope.entry) e.now)) }
    ensures inferred { Infers result (typing (scope_of scope.entry) e.now).inferred }
{
    let inferred = expression(scope, e, param.member_type())?;
    refuse_if(!inferred.fits_param(param), Kind::WrongArgument, e.from)?;
    Ok(inferred)
}

//! Statements, the values that they dispose of, and the sides of requirements.
ghost use Rattle.std.specs.Prelude.{◌≡◌, [], take};
ghost use Rattle.std.specs.List.{flat_map};
ghost use Rattle.ivy_check.specs.Tests.{first_of, walked};
ghost use Rattle.ivy_check.specs.Expressions.{typing};
ghost use Rattle.ivy_check.specs.Statements.{disposes, is_disposed, verify_tests, program_tests, lock_tests};
ghost use Rattle.ivy_check.specs.Statements.{unlock_tests, statement_tests, left, left_tests, side_tests, sides_tests};
ghost use Rattle.ivy_check.specs.Scope.{scope_of};
ghost use Rattle.ivy_check.specs.Walk.{reported};

use crate::expression::whole_expression;
use crate::fault::{Fault, Kind, refuse_if};
use crate::functions::ParamType;
use crate::inferred::has_type;
use crate::scope::{Scope, is_name, is_required};
use crate::types::IvyType;
use ivy_syntax::{Expr, Req, Stmt, Word};

// A statement disposes of the value of this name.
fn disposes(name: &[u8], stmt: &Stmt) -> bool
    ensures { result ≡ disposes name.now stmt.now }
{
    match stmt {
        Stmt::Verify { .. } => false,
        Stmt::Lock { value, .. } | Stmt::Unlock { value, .. } => is_name(name, value),
    }
}

fn is_disposed(name: &[u8], stmts: &[Stmt]) -> bool
    ensures { result ≡ is_disposed name.now stmts.now }
{
    stmts.iter().any(|stmt| disposes(name, stmt))
}

#[tactic(auto, using(crate::proofs::TypingLemmas::walking))]
fn verify(scope: Scope, e: &Expr) -> Result<(), Fault>
    ensures { reported result ≡ first_of (verify_tests (typing (scope_of scope.entry) e.now)) }
{
    let inferred = whole_expression(scope, e)?;
    refuse_if(
        !has_type(IvyType::Boolean, inferred.ivy_type),
        Kind::NotBoolean,
        e.from,
    )
}

#[tactic(auto, using(crate::proofs::TypingLemmas::walking))]
fn program(scope: Scope, e: &Expr) -> Result<(), Fault>
    ensures { reported result ≡ first_of (program_tests (typing (scope_of scope.entry) e.now)) }
{
    let inferred = whole_expression(scope, e)?;
    refuse_if(
        !has_type(IvyType::Program, inferred.ivy_type),
        Kind::NotProgram,
        e.from,
    )
}

// A lock after these statements.
#[tactic(auto, using(crate::proofs::TypingLemmas::walking))]
fn lock(scope: Scope, before: &[Stmt], value: &Word, with: &Expr) -> Result<(), Fault>
    ensures { reported result ≡ first_of (lock_tests (scope_of scope.entry) before.now value.now
        (typing (scope_of scope.entry) with.now)) }
{
    let name = value.name.as_slice();
    refuse_if(!scope.is_value(name), Kind::NoValue, value.at)?;
    refuse_if(is_disposed(name, before), Kind::DisposedTwice, value.at)?;
    program(scope, with)
}

// An unlock after these statements.
#[tactic(auto, using(crate::proofs::TypingLemmas::walking))]
fn unlock(scope: Scope, before: &[Stmt], value: &Word) -> Result<(), Fault>
    ensures { reported result ≡ first_of (unlock_tests (scope_of scope.entry) before.now value.now) }
{
    let name = value.name.as_slice();
    refuse_if(!scope.is_value(name), Kind::NoValue, value.at)?;
    let required = is_required(name, scope.clause.reqs.as_slice());
    refuse_if(required, Kind::RequiredUnlocked, value.at)?;
    refuse_if(is_disposed(name, before), Kind::DisposedTwice, value.at)
}

// A statement after these.
fn statement(scope: Scope, before: &[Stmt], stmt: &Stmt) -> Result<(), Fault>
    ensures { reported result ≡ first_of (statement_tests (scope_of scope.entry) before.now stmt.now) }
{
    match stmt {
        Stmt::Verify { expr, .. } => verify(scope, expr),
        Stmt::Lock { value, program, .. } => lock(scope, before, value, program),
        Stmt::Unlock { value, .. } => unlock(scope, before, value),
    }
}

/// The statements of a clause, in order.
pub(crate) fn statements(scope: Scope, stmts: &[Stmt]) -> Result<(), Fault>
    ensures { reported result ≡ first_of (walked (statement_tests (scope_of scope.entry)) [] stmts.now) }
{
    for (k, stmt) in stmts.iter().enumerate() {
        statement(scope, &stmts[..k], stmt)?;
    }
    Ok(())
}

// A value that is left by these statements.
fn disposed(stmts: &[Stmt], value: &Word) -> Result<(), Fault>
    ensures { reported result ≡ first_of (left stmts.now value.now) }
{
    let is_left = !is_disposed(value.name.as_slice(), stmts);
    refuse_if(is_left, Kind::ValueLeft, value.at)
}

// The required values that are left.
fn required_disposed(stmts: &[Stmt], reqs: &[Req]) -> Result<(), Fault>
    ensures { reported result ≡ first_of (flat_map (λ req. left stmts.now req.name) reqs.now) }
{
    for req in reqs {
        disposed(stmts, &req.name)?;
    }
    Ok(())
}

/// The values that are left at the end of a clause.
#[tactic(auto, using(crate::proofs::TypingLemmas::walking))]
pub(crate) fn all_disposed(scope: Scope) -> Result<(), Fault>
    ensures { reported result ≡ first_of (left_tests (scope_of scope.entry)) }
{
    let stmts = scope.clause.stmts.as_slice();
    disposed(stmts, &scope.contract.value)?;
    required_disposed(stmts, scope.clause.reqs.as_slice())
}

// A side of a requirement, which asks for this type.
#[tactic(auto, using(crate::proofs::TypingLemmas::walking))]
fn side(scope: Scope, expected: IvyType, e: &Expr) -> Result<(), Fault>
    ensures { reported result ≡ first_of (side_tests expected (typing (scope_of scope.entry) e.now)) }
{
    let inferred = whole_expression(scope, e)?;
    refuse_if(
        !inferred.fits_param(ParamType::Exactly(expected)),
        Kind::WrongOperand,
        e.from,
    )
}

/// The sides of a requirement.
#[tactic(auto, using(crate::proofs::TypingLemmas::walking))]
pub(crate) fn sides(scope: Scope, req: &Req) -> Result<(), Fault>
    ensures { reported result ≡ first_of (sides_tests (scope_of scope.entry) req.now) }
{
    side(scope, IvyType::Amount, &req.amount)?;
    side(scope, IvyType::Asset, &req.asset)
}

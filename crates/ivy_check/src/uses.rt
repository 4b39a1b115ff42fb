//! Uses of parameters.
ghost use Rattle.std.specs.Prelude.{◌≡◌, map};
ghost use Rattle.std.specs.List.{list_any, flat_map};
ghost use Rattle.ivy_check.specs.Tests.{first_of};
ghost use Rattle.ivy_check.specs.Uses.{uses, statement_uses, req_uses, clause_uses, word_unused, unused_tests};
ghost use Rattle.ivy_check.specs.Walk.{reported};

use crate::fault::{Fault, Kind, refuse_if};
use ivy_syntax::{ClauseTree, Expr, Form, Group, Req, Stmt, Word};

// The expression uses this name.
#[cycle(uses)]
#[tactic(auto, unfolding(crate::specs::Uses::uses))]
fn uses(name: &[u8], e: &Expr) -> bool
    ensures { result ≡ uses name.now e.now }
{
    match &e.form {
        Form::Name(used) => used.as_slice() == name,
        Form::Call { args, .. } => any_uses(name, args.as_slice()),
        Form::Members(members) => any_uses(name, members.as_slice()),
        Form::Unary { arg, .. } => uses(name, arg.get()),
        Form::Binary { left, right, .. } => uses(name, left.get()) || uses(name, right.get()),
        _ => false,
    }
}

// One of these expressions uses this name.
#[cycle(uses)]
fn any_uses(name: &[u8], args: &[Expr]) -> bool
    ensures { result ≡ list_any (λ uses. uses) (map (uses name.now) args.now) }
{
    for arg in args {
        if uses(name, arg) {
            return true;
        }
    }
    false
}

fn statement_uses(name: &[u8], stmt: &Stmt) -> bool
    ensures { result ≡ statement_uses name.now stmt.now }
{
    match stmt {
        Stmt::Verify { expr, .. } => uses(name, expr),
        Stmt::Lock { program, .. } => uses(name, program),
        Stmt::Unlock { .. } => false,
    }
}

fn req_uses(name: &[u8], req: &Req) -> bool
    ensures { result ≡ req_uses name.now req.now }
{
    uses(name, &req.amount) || uses(name, &req.asset)
}

fn reqs_use(name: &[u8], reqs: &[Req]) -> bool
    ensures { result ≡ list_any (req_uses name.now) reqs.now }
{
    reqs.iter().any(|req| req_uses(name, req))
}

fn statements_use(name: &[u8], stmts: &[Stmt]) -> bool
    ensures { result ≡ list_any (statement_uses name.now) stmts.now }
{
    stmts.iter().any(|stmt| statement_uses(name, stmt))
}

// An expression of the clause uses this name.
fn clause_uses(name: &[u8], clause: &ClauseTree) -> bool
    ensures { result ≡ clause_uses name.now clause.now }
{
    reqs_use(name, clause.reqs.as_slice()) || statements_use(name, clause.stmts.as_slice())
}

fn clauses_use(name: &[u8], clauses: &[ClauseTree]) -> bool
    ensures { result ≡ list_any (clause_uses name.now) clauses.now }
{
    clauses.iter().any(|clause| clause_uses(name, clause))
}

// The parameter of this name is used by one of these clauses.
fn used(clauses: &[ClauseTree], word: &Word) -> Result<(), Fault>
    ensures { reported result ≡ first_of (word_unused clauses.now word.now) }
{
    let is_used = clauses_use(word.name.as_slice(), clauses);
    refuse_if(!is_used, Kind::Unused, word.at)
}

// Each parameter of a group is.
fn group_used(clauses: &[ClauseTree], names: &[Word]) -> Result<(), Fault>
    ensures { reported result ≡ first_of (flat_map (word_unused clauses.now) names.now) }
{
    for word in names {
        used(clauses, word)?;
    }
    Ok(())
}

/// Each parameter of these groups is used by one of these clauses.
pub(crate) fn all_used(clauses: &[ClauseTree], params: &[Group]) -> Result<(), Fault>
    ensures { reported result ≡ first_of (unused_tests clauses.now params.now) }
{
    for group in params {
        group_used(clauses, group.names.as_slice())?;
    }
    Ok(())
}

//! What the clauses of a contract do, over core.
ghost use Rattle.std.specs.Prelude.{◌≡◌, List, [], ◌∷◌, map, Option, Some, None, IfOk, option_map};
ghost use Rattle.std.specs.Option.{option_copied};
ghost use Rattle.ivy_check.specs.Parameters.{parameters};
ghost use Rattle.ivy_value.specs.Holds.{requirement_of};
ghost use Rattle.ivy_value.specs.Steps.{worth_of, step_of, clause_of};
ghost use Rattle.ivy_value.specs.Lowered.{lowered_req, lowered_worth, lowered_stmt, lowered_stmts, lowered_clause};
ghost use Rattle.ivy_value.specs.Lowered.{lowered_clauses};
ghost use Rattle.ivy_value.specs.Seen.{names_of, steps_in};
ghost use Rattle.ivy_check.specs.WellTyped.{ContractIsTyped};
ghost use Rattle.ivy_value.specs.Laws.{IsCore, AreCores};

use crate::NoMemory;
use crate::lower::{Names, lower_term};
use crate::tree::{
    CoreClause, CoreClauses, CoreContract, CoreContracts, CoreStep, CoreSteps, CoreWorth,
};
use ivy_check::{Checked, Param, params};
use ivy_syntax::{ClauseTree, Contract, Req, Stmt};
use std::alloc::Global;
use wire::Listed;

// What a clause requires for a value.
fn lower_req(alloc: Global, names: Names, req: &Req) -> Result<Option<CoreWorth>, NoMemory>
    ensures { IfOk result (λ made. option_map worth_of made ≡ lowered_req (names_of names.entry) req.now) }
{
    let Some(amount) = lower_term(alloc, names, &req.amount)? else {
        return Ok(None);
    };
    let Some(asset) = lower_term(alloc, names, &req.asset)? else {
        return Ok(None);
    };
    Ok(Some(CoreWorth::Required { amount, asset }))
}

// The requirement of a value.
fn requirement_of<'a>(name: &[u8], reqs: &'a [Req]) -> Option<&'a Req>
    ensures { option_copied result ≡ requirement_of name.now reqs.now }
{
    for req in reqs {
        if req.name.name.as_slice() == name {
            return Some(req);
        }
    }
    None
}

// The asset and the amount of a value: this one is the contract's.
fn lower_worth(
    alloc: Global,
    names: Names,
    value: &[u8],
    reqs: &[Req],
    name: &[u8],
) -> Result<Option<CoreWorth>, NoMemory>
    ensures { IfOk result (λ made. option_map worth_of made
        ≡ lowered_worth (names_of names.entry) value.now reqs.now name.now) }
{
    if value == name {
        return Ok(Some(CoreWorth::Locked));
    }
    match requirement_of(name, reqs) {
        Some(req) => lower_req(alloc, names, req),
        None => Ok(None),
    }
}

// A statement is a step, but an unlock is none.
fn lower_stmt(
    alloc: Global,
    names: Names,
    value: &[u8],
    reqs: &[Req],
    stmt: &Stmt,
) -> Result<Option<Option<CoreStep>>, NoMemory>
    ensures { IfOk result (λ made. option_map steps_in made
        ≡ lowered_stmt (names_of names.entry) value.now reqs.now stmt.now) }
{
    match stmt {
        Stmt::Verify { at: _, expr } => match lower_term(alloc, names, expr)? {
            Some(core) => Ok(Some(Some(CoreStep::Verify(core)))),
            None => Ok(None),
        },
        Stmt::Lock {
            at: _,
            value: locked,
            program,
        } => {
            let Some(worth) = lower_worth(alloc, names, value, reqs, locked.name.as_slice())? else {
                return Ok(None);
            };
            let Some(program) = lower_term(alloc, names, program)? else {
                return Ok(None);
            };
            Ok(Some(Some(CoreStep::Lock { worth, program })))
        }
        Stmt::Unlock { at: _, value: _ } => Ok(Some(None)),
    }
}

fn lower_stmts(
    alloc: Global,
    names: Names,
    value: &[u8],
    reqs: &[Req],
    stmts: &[Stmt],
) -> Result<Option<CoreSteps>, NoMemory>
    ensures { IfOk result (λ made. option_map (map step_of) made
        ≡ lowered_stmts (names_of names.entry) value.now reqs.now stmts.now) }
{
    let mut steps = Listed::new(alloc);
    for stmt in stmts {
        match lower_stmt(alloc, names, value, reqs, stmt)? {
            Some(Some(step)) => steps.push(step)?,
            Some(None) => {}
            None => return Ok(None),
        }
    }
    Ok(Some(steps))
}

#[tactic(auto, unfolding(crate::specs::Lowered::lowered_clause))]
fn lower_clause(
    alloc: Global,
    held: &[Param],
    value: &[u8],
    clause: &ClauseTree,
) -> Result<Option<CoreClause>, NoMemory>
    ensures { IfOk result (λ made. option_map clause_of made ≡ lowered_clause held.now value.now clause.now) }
{
    let given = params(alloc, clause.params.as_slice())?;
    let names = Names {
        held,
        given: given.as_slice(),
    };
    let reqs = clause.reqs.as_slice();
    let Some(steps) = lower_stmts(alloc, names, value, reqs, clause.stmts.as_slice())? else {
        return Ok(None);
    };
    Ok(Some(CoreClause { given, steps }))
}

// The clauses of a contract with these parameters and this value, in order.
fn lower_clauses(
    alloc: Global,
    held: &[Param],
    value: &[u8],
    clauses: &[ClauseTree],
) -> Result<Option<CoreClauses>, NoMemory>
    ensures { IfOk result (λ made. option_map (map clause_of) made
        ≡ lowered_clauses held.now value.now clauses.now) }
{
    let mut made = Listed::new(alloc);
    for clause in clauses {
        match lower_clause(alloc, held, value, clause)? {
            Some(clause) => made.push(clause)?,
            None => return Ok(None),
        }
    }
    Ok(Some(made))
}

/// The core of a contract: its parameters and those of its clauses, and for each clause steps that hold, for every
/// spending, exactly where the clause does.
#[tactic(auto, using(crate::proofs::ClauseCores::core_of_typed, crate::proofs::ClauseCores::there_is_core))]
fn core_of(alloc: Global, contract: &Contract) -> Result<CoreContract, NoMemory>
    requires typed { ContractIsTyped contract.now }
    ensures core { IfOk result (λ core. IsCore contract.now core) }
{
    let held = params(alloc, contract.params.as_slice())?;
    let value = contract.value.name.as_slice();
    let clauses = lower_clauses(alloc, held.as_slice(), value, contract.clauses.as_slice())?;
    match clauses {
        Some(clauses) => Ok(CoreContract { held, clauses }),
        None => unreachable!(),
    }
}

/// The core of each contract of a source, in order. A clause's steps hold, for every spending, exactly where the clause
/// does.
#[tactic(auto, using(crate::proofs::ClauseCores::walking))]
pub fn cores(alloc: Global, checked: &Checked) -> Result<CoreContracts, NoMemory>
    ensures cores { IfOk result (λ cores. AreCores checked.now.contracts cores) }
{
    let mut made = Listed::new(alloc);
    for contract in checked.source().contracts.as_slice() {
        made.push(core_of(alloc, contract)?)?;
    }
    Ok(made)
}

//! Contracts, clauses and requirements, in the order of their tests.
ghost use Rattle.std.specs.Prelude.{◌≡◌, [], take, Some};
ghost use Rattle.std.specs.List.{list_any};
ghost use Rattle.ivy_check.specs.Tests.{first_of, walked};
ghost use Rattle.ivy_check.specs.Scope.{is_name};
ghost use Rattle.ivy_check.specs.TypeFault.{req_tests, clause_body_tests, clause_tests, contract_tests};
ghost use Rattle.ivy_check.specs.Scope.{scope_of};
ghost use Rattle.ivy_check.specs.Walk.{reported};

use crate::declare::{declared, is_contract_name, params};
use crate::fault::{Fault, Kind};
use crate::scope::{Scope, is_name, is_parameter, is_required};
use crate::statement::{all_disposed, sides, statements};
use crate::uses::all_used;
use ivy_syntax::{ClauseTree, Contract, Req};
use std::slice;

// A requirement after others: its name, its amount and its asset.
#[tactic(auto, using(crate::proofs::TypingLemmas::walking))]
fn requirement(scope: Scope, before: &[Req], req: &Req) -> Result<(), Fault>
    ensures { reported result ≡ first_of (req_tests (scope_of scope.entry) before.now req.now) }
{
    let name = req.name.name.as_slice();
    let taken = is_contract_name(Some(scope.contract), name)
        || is_parameter(name, scope.clause.params.as_slice())
        || is_required(name, before);
    declared(Kind::NameTwice, &req.name, taken)?;
    sides(scope, req)
}

fn requirements(scope: Scope, reqs: &[Req]) -> Result<(), Fault>
    ensures { reported result ≡ first_of (walked (req_tests (scope_of scope.entry)) [] reqs.now) }
{
    for (k, req) in reqs.iter().enumerate() {
        requirement(scope, &reqs[..k], req)?;
    }
    Ok(())
}

// What stands in a clause, and what is left or unused at its end.
#[tactic(auto, using(crate::proofs::TypingLemmas::walking))]
fn clause_body(scope: Scope) -> Result<(), Fault>
    ensures { reported result ≡ first_of (clause_body_tests (scope_of scope.entry)) }
{
    let groups = scope.clause.params.as_slice();
    params(Some(scope.contract), groups)?;
    requirements(scope, scope.clause.reqs.as_slice())?;
    statements(scope, scope.clause.stmts.as_slice())?;
    all_disposed(scope)?;
    all_used(slice::from_ref(scope.clause), groups)
}

// One of these clauses has this name.
fn has_clause(name: &[u8], clauses: &[ClauseTree]) -> bool
    ensures { result ≡ list_any (λ other. is_name name.now other.name) clauses.now }
{
    clauses.iter().any(|other| is_name(name, &other.name))
}

// A clause of a contract after others.
#[tactic(auto, using(crate::proofs::TypingLemmas::walking))]
fn clause(contract: &Contract, before: &[ClauseTree], clause: &ClauseTree) -> Result<(), Fault>
    ensures { reported result ≡ first_of (clause_tests contract.now before.now clause.now) }
{
    let taken = has_clause(clause.name.name.as_slice(), before);
    declared(Kind::ClauseTwice, &clause.name, taken)?;
    clause_body(Scope { contract, clause })
}

fn clauses(contract: &Contract, clauses: &[ClauseTree]) -> Result<(), Fault>
    ensures { reported result ≡ first_of (walked (clause_tests contract.now) [] clauses.now) }
{
    for (k, one) in clauses.iter().enumerate() {
        clause(contract, &clauses[..k], one)?;
    }
    Ok(())
}

// One of these contracts has this name.
fn has_contract(name: &[u8], contracts: &[Contract]) -> bool
    ensures { result ≡ list_any (λ other. is_name name.now other.name) contracts.now }
{
    contracts.iter().any(|other| is_name(name, &other.name))
}

// A contract after others.
#[tactic(auto, using(crate::proofs::TypingLemmas::walking))]
fn contract(before: &[Contract], contract: &Contract) -> Result<(), Fault>
    ensures { reported result ≡ first_of (contract_tests before.now contract.now) }
{
    let groups = contract.params.as_slice();
    let value = &contract.value;
    let taken = has_contract(contract.name.name.as_slice(), before);
    declared(Kind::ContractTwice, &contract.name, taken)?;
    params(None, groups)?;
    declared(
        Kind::NameTwice,
        value,
        is_parameter(value.name.as_slice(), groups),
    )?;
    clauses(contract, contract.clauses.as_slice())?;
    all_used(contract.clauses.as_slice(), groups)
}

/// The contracts of a source, in order.
pub(crate) fn contracts(contracts: &[Contract]) -> Result<(), Fault>
    ensures { reported result ≡ first_of (walked contract_tests [] contracts.now) }
{
    for (k, one) in contracts.iter().enumerate() {
        contract(&contracts[..k], one)?;
    }
    Ok(())
}

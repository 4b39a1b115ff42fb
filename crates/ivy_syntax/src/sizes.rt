//! Sizes of a source. A number that is too large for its type is given as 2^64 - 1.

ghost use Rattle.std.specs.Prelude.{◌≡◌};
ghost use Rattle.ivy_syntax.specs.Sizes.{within_word, total};
ghost use Rattle.ivy_syntax.specs.Sizes as sizes;

use crate::tree::{ClauseTree, Contract, Expr, Form, Group, Req, Source, Stmt};

#[cycle(nodes)]
fn expr_nodes(e: &Expr) -> u64
    ensures { result ≡ within_word (sizes.expr_nodes e.now) }
{
    match &e.form {
        Form::Call { args, .. } => exprs_nodes(args.as_slice()).saturating_add(1),
        Form::Members(items) => exprs_nodes(items.as_slice()).saturating_add(1),
        Form::Unary { arg, .. } => expr_nodes(arg.get()).saturating_add(1),
        Form::Binary { left, right, .. } => expr_nodes(left.get())
            .saturating_add(expr_nodes(right.get()))
            .saturating_add(1),
        _ => 1,
    }
}

#[cycle(nodes)]
fn exprs_nodes(exprs: &[Expr]) -> u64
    ensures { result ≡ within_word (total sizes.expr_nodes exprs.now) }
{
    let mut sum = 0u64;
    for e in exprs {
        sum = sum.saturating_add(expr_nodes(e));
    }
    sum
}

fn req_nodes(req: &Req) -> u64
    ensures { result ≡ within_word (sizes.req_nodes req.now) }
{
    expr_nodes(&req.amount)
        .saturating_add(expr_nodes(&req.asset))
        .saturating_add(1)
}

fn reqs_nodes(reqs: &[Req]) -> u64
    ensures { result ≡ within_word (total sizes.req_nodes reqs.now) }
{
    let mut sum = 0u64;
    for req in reqs {
        sum = sum.saturating_add(req_nodes(req));
    }
    sum
}

fn stmt_nodes(stmt: &Stmt) -> u64
    ensures { result ≡ within_word (sizes.stmt_nodes stmt.now) }
{
    match stmt {
        Stmt::Verify { expr, .. } => expr_nodes(expr).saturating_add(1),
        Stmt::Lock { program, .. } => expr_nodes(program).saturating_add(1),
        Stmt::Unlock { .. } => 1,
    }
}

fn stmts_nodes(stmts: &[Stmt]) -> u64
    ensures { result ≡ within_word (total sizes.stmt_nodes stmts.now) }
{
    let mut sum = 0u64;
    for stmt in stmts {
        sum = sum.saturating_add(stmt_nodes(stmt));
    }
    sum
}

// Each parameter is one node.
fn groups_nodes(groups: &[Group]) -> u64
    ensures { result ≡ within_word (total sizes.group_nodes groups.now) }
{
    let mut sum = 0u64;
    for group in groups {
        sum = sum.saturating_add(group.names.len() as u64);
    }
    sum
}

fn clause_nodes(clause: &ClauseTree) -> u64
    ensures { result ≡ within_word (sizes.clause_nodes clause.now) }
{
    groups_nodes(clause.params.as_slice())
        .saturating_add(reqs_nodes(clause.reqs.as_slice()))
        .saturating_add(stmts_nodes(clause.stmts.as_slice()))
        .saturating_add(1)
}

fn clauses_nodes(clauses: &[ClauseTree]) -> u64
    ensures { result ≡ within_word (total sizes.clause_nodes clauses.now) }
{
    let mut sum = 0u64;
    for clause in clauses {
        sum = sum.saturating_add(clause_nodes(clause));
    }
    sum
}

// The contract and its value are two nodes.
fn contract_nodes(contract: &Contract) -> u64
    ensures { result ≡ within_word (sizes.contract_nodes contract.now) }
{
    groups_nodes(contract.params.as_slice())
        .saturating_add(clauses_nodes(contract.clauses.as_slice()))
        .saturating_add(2)
}

fn contracts_nodes(contracts: &[Contract]) -> u64
    ensures { result ≡ within_word (total sizes.contract_nodes contracts.now) }
{
    let mut sum = 0u64;
    for contract in contracts {
        sum = sum.saturating_add(contract_nodes(contract));
    }
    sum
}

/// How many nodes a source has: each contract, parameter, locked value, clause, requirement, statement and expression.
/// 2^64 - 1 where there are more.
pub fn nodes(source: &Source) -> u64
    ensures { result ≡ within_word (sizes.nodes source.now) }
{
    contracts_nodes(source.contracts.as_slice())
}

#[cycle(literals)]
fn expr_literals(e: &Expr) -> u64
    ensures { result ≡ within_word (sizes.expr_literals e.now) }
{
    match &e.form {
        Form::Hex(bytes) | Form::Quoted(bytes) => bytes.len() as u64,
        Form::Call { args, .. } => exprs_literals(args.as_slice()),
        Form::Members(items) => exprs_literals(items.as_slice()),
        Form::Unary { arg, .. } => expr_literals(arg.get()),
        Form::Binary { left, right, .. } => {
            expr_literals(left.get()).saturating_add(expr_literals(right.get()))
        }
        _ => 0,
    }
}

#[cycle(literals)]
fn exprs_literals(exprs: &[Expr]) -> u64
    ensures { result ≡ within_word (total sizes.expr_literals exprs.now) }
{
    let mut sum = 0u64;
    for e in exprs {
        sum = sum.saturating_add(expr_literals(e));
    }
    sum
}

fn req_literals(req: &Req) -> u64
    ensures { result ≡ within_word (sizes.req_literals req.now) }
{
    expr_literals(&req.amount).saturating_add(expr_literals(&req.asset))
}

fn reqs_literals(reqs: &[Req]) -> u64
    ensures { result ≡ within_word (total sizes.req_literals reqs.now) }
{
    let mut sum = 0u64;
    for req in reqs {
        sum = sum.saturating_add(req_literals(req));
    }
    sum
}

fn stmt_literals(stmt: &Stmt) -> u64
    ensures { result ≡ within_word (sizes.stmt_literals stmt.now) }
{
    match stmt {
        Stmt::Verify { expr, .. } => expr_literals(expr),
        Stmt::Lock { program, .. } => expr_literals(program),
        Stmt::Unlock { .. } => 0,
    }
}

fn stmts_literals(stmts: &[Stmt]) -> u64
    ensures { result ≡ within_word (total sizes.stmt_literals stmts.now) }
{
    let mut sum = 0u64;
    for stmt in stmts {
        sum = sum.saturating_add(stmt_literals(stmt));
    }
    sum
}

fn clause_literals(clause: &ClauseTree) -> u64
    ensures { result ≡ within_word (sizes.clause_literals clause.now) }
{
    reqs_literals(clause.reqs.as_slice()).saturating_add(stmts_literals(clause.stmts.as_slice()))
}

fn clauses_literals(clauses: &[ClauseTree]) -> u64
    ensures { result ≡ within_word (total sizes.clause_literals clauses.now) }
{
    let mut sum = 0u64;
    for clause in clauses {
        sum = sum.saturating_add(clause_literals(clause));
    }
    sum
}

fn contracts_literals(contracts: &[Contract]) -> u64
    ensures { result ≡ within_word (total sizes.contract_literals contracts.now) }
{
    let mut sum = 0u64;
    for contract in contracts {
        sum = sum.saturating_add(clauses_literals(contract.clauses.as_slice()));
    }
    sum
}

/// How many bytes the literals of a source have: those that its hex literals stand for, and those between the quotes of
/// its texts. 2^64 - 1 where there are more.
pub fn literal_bytes(source: &Source) -> u64
    ensures { result ≡ within_word (sizes.literal_bytes source.now) }
{
    contracts_literals(source.contracts.as_slice())
}

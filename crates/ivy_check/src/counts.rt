//! How often names stand in the expressions of a clause, and how many keys its checks of signatures have. A number that
//! is too large for its type is given as 2^64 - 1.
ghost use Rattle.std.specs.Prelude.{◌≡◌, map};
ghost use Rattle.ivy_syntax.specs.Sizes.{within_word, total};
ghost use Rattle.ivy_check.specs.Counts as counts;

use ivy_syntax::{ClauseTree, Expr, Form, Req, Stmt};

/// How often a name stands in an expression; 2^64 - 1 where it is more often.
#[cycle(uses)]
pub fn use_count(name: &[u8], e: &Expr) -> u64
    ensures { result ≡ within_word (counts.use_count name.now e.now) }
{
    match &e.form {
        Form::Name(used) => (used.as_slice() == name) as u64,
        Form::Call { args, .. } => exprs_uses(name, args.as_slice()),
        Form::Members(members) => exprs_uses(name, members.as_slice()),
        Form::Unary { arg, .. } => use_count(name, arg.get()),
        Form::Binary { left, right, .. } => {
            use_count(name, left.get()).saturating_add(use_count(name, right.get()))
        }
        _ => 0,
    }
}

#[cycle(uses)]
fn exprs_uses(name: &[u8], exprs: &[Expr]) -> u64
    ensures { result ≡ within_word (total (counts.use_count name.now) exprs.now) }
{
    let mut sum = 0u64;
    for e in exprs {
        sum = sum.saturating_add(use_count(name, e));
    }
    sum
}

fn req_uses(name: &[u8], req: &Req) -> u64
    ensures { result ≡ within_word (counts.req_use_count name.now req.now) }
{
    use_count(name, &req.amount).saturating_add(use_count(name, &req.asset))
}

fn reqs_uses(name: &[u8], reqs: &[Req]) -> u64
    ensures { result ≡ within_word (total (counts.req_use_count name.now) reqs.now) }
{
    let mut sum = 0u64;
    for req in reqs {
        sum = sum.saturating_add(req_uses(name, req));
    }
    sum
}

fn stmt_uses(name: &[u8], stmt: &Stmt) -> u64
    ensures { result ≡ within_word (counts.stmt_use_count name.now stmt.now) }
{
    match stmt {
        Stmt::Verify { expr, .. } => use_count(name, expr),
        Stmt::Lock { program, .. } => use_count(name, program),
        Stmt::Unlock { .. } => 0,
    }
}

fn stmts_uses(name: &[u8], stmts: &[Stmt]) -> u64
    ensures { result ≡ within_word (total (counts.stmt_use_count name.now) stmts.now) }
{
    let mut sum = 0u64;
    for stmt in stmts {
        sum = sum.saturating_add(stmt_uses(name, stmt));
    }
    sum
}

/// How often a name stands in the expressions of a clause, so how often a parameter is used there; 2^64 - 1 where it is
/// more often.
pub fn clause_use_count(name: &[u8], clause: &ClauseTree) -> u64
    ensures { result ≡ within_word (counts.clause_use_count name.now clause.now) }
{
    reqs_uses(name, clause.reqs.as_slice()).saturating_add(stmts_uses(
        name,
        clause.stmts.as_slice(),
    ))
}

// How many members it has, if it is a list.
fn member_count(e: &Expr) -> u64
    ensures { result ≡ within_word (counts.keys_of e.now).members }
{
    match &e.form {
        Form::Members(members) => members.len() as u64,
        _ => 0,
    }
}

// The keys of a call itself.
fn call_keys(function: &[u8], args: &[Expr]) -> u64
    ensures { result ≡ within_word (counts.call_keys function.now (map counts.keys_of args.now)) }
{
    match args {
        [first, ..] if function == b"checkTxMultiSig".as_slice() => member_count(first),
        [_, ..] if function == b"checkTxSig".as_slice() => 1,
        _ => 0,
    }
}

/// How many keys stand in the checks of signatures of an expression; 2^64 - 1 where there are more.
#[cycle(keys)]
pub fn key_count(e: &Expr) -> u64
    ensures { result ≡ within_word (counts.key_count e.now) }
{
    match &e.form {
        Form::Call { name, args } => {
            call_keys(name.as_slice(), args.as_slice()).saturating_add(exprs_keys(args.as_slice()))
        }
        Form::Members(members) => exprs_keys(members.as_slice()),
        Form::Unary { arg, .. } => key_count(arg.get()),
        Form::Binary { left, right, .. } => {
            key_count(left.get()).saturating_add(key_count(right.get()))
        }
        _ => 0,
    }
}

#[cycle(keys)]
fn exprs_keys(exprs: &[Expr]) -> u64
    ensures { result ≡ within_word (total counts.key_count exprs.now) }
{
    let mut sum = 0u64;
    for e in exprs {
        sum = sum.saturating_add(key_count(e));
    }
    sum
}

fn req_keys(req: &Req) -> u64
    ensures { result ≡ within_word (counts.req_key_count req.now) }
{
    key_count(&req.amount).saturating_add(key_count(&req.asset))
}

fn reqs_keys(reqs: &[Req]) -> u64
    ensures { result ≡ within_word (total counts.req_key_count reqs.now) }
{
    let mut sum = 0u64;
    for req in reqs {
        sum = sum.saturating_add(req_keys(req));
    }
    sum
}

fn stmt_keys(stmt: &Stmt) -> u64
    ensures { result ≡ within_word (counts.stmt_key_count stmt.now) }
{
    match stmt {
        Stmt::Verify { expr, .. } => key_count(expr),
        Stmt::Lock { program, .. } => key_count(program),
        Stmt::Unlock { .. } => 0,
    }
}

fn stmts_keys(stmts: &[Stmt]) -> u64
    ensures { result ≡ within_word (total counts.stmt_key_count stmts.now) }
{
    let mut sum = 0u64;
    for stmt in stmts {
        sum = sum.saturating_add(stmt_keys(stmt));
    }
    sum
}

/// How many keys stand in the checks of signatures of a clause: one for each of one signature, and as many as there are
/// in its list for each of several. 2^64 - 1 where there are more.
pub fn clause_key_count(clause: &ClauseTree) -> u64
    ensures { result ≡ within_word (counts.clause_key_count clause.now) }
{
    reqs_keys(clause.reqs.as_slice()).saturating_add(stmts_keys(clause.stmts.as_slice()))
}

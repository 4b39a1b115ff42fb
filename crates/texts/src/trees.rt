//! What a checked source gives to those who compile it.
use anyhow::{Result, bail};
use ivy_check::{
    IvyType, Scope, all_params, check, clause_key_count, clause_use_count, common_type,
    expression_type, place_of,
};
use ivy_syntax::{Contract, Expr, Form, Req, Stmt, Word, parse};

/// Prints for each clause its keys, its parameters with their places, types and uses, and the types of its expressions;
/// `unchecked` where the text is no source without a type fault.
pub fn given(rt: &(impl Print + AllocGlobal), text: &[u8]) -> Result<()> {
    let Ok(source) = parse(rt.alloc(), text) else {
        println!(rt; "unchecked")?;
        return Ok(());
    };
    let Ok(checked) = check(source) else {
        println!(rt; "unchecked")?;
        return Ok(());
    };
    for contract in checked.source().contracts.as_slice() {
        print_contract(rt, contract)?;
    }
    Ok(())
}

fn print_contract(rt: &(impl Print + AllocGlobal), contract: &Contract) -> Result<()> {
    for clause in contract.clauses.as_slice() {
        print_clause(rt, Scope { contract, clause })?;
    }
    Ok(())
}

fn print_clause(rt: &(impl Print + AllocGlobal), scope: Scope) -> Result<()> {
    let keys = clause_key_count(scope.clause);
    println!(rt; "clause {} keys {keys}", shown(&scope.clause.name))?;
    print_params(rt, scope)?;
    for req in scope.clause.reqs.as_slice() {
        print_req(rt, scope, req)?;
    }
    for stmt in scope.clause.stmts.as_slice() {
        print_stmt(rt, scope, stmt)?;
    }
    Ok(())
}

// Each parameter of the contract and then of the clause, by the place of its name.
fn print_params(rt: &(impl Print + AllocGlobal), scope: Scope) -> Result<()> {
    let Ok(params) = all_params(rt.alloc(), scope) else {
        bail!("no memory");
    };
    for param in params.as_slice() {
        let name = param.name.as_slice();
        let Some(place) = place_of(name, params.as_slice()) else {
            bail!("a parameter without a place");
        };
        let uses = clause_use_count(name, scope.clause);
        let shown_name = str::from_utf8(name)?;
        println!(rt; "param {place} {shown_name} {:?} uses {uses}", param.kind)?;
    }
    Ok(())
}

fn print_req(rt: &impl Print, scope: Scope, req: &Req) -> Result<()> {
    print!(rt; "requires {}", shown(&req.name))?;
    print_type(rt, expression_type(scope, &req.amount))?;
    print_type(rt, expression_type(scope, &req.asset))?;
    println!(rt; "")?;
    Ok(())
}

fn print_stmt(rt: &impl Print, scope: Scope, stmt: &Stmt) -> Result<()> {
    match stmt {
        Stmt::Verify { expr, .. } => print_verify(rt, scope, expr)?,
        Stmt::Lock { value, program, .. } => {
            print!(rt; "lock {}", shown(value))?;
            print_type(rt, expression_type(scope, program))?;
        }
        Stmt::Unlock { value, .. } => print!(rt; "unlock {}", shown(value))?,
    }
    println!(rt; "")?;
    Ok(())
}

// The type of what is verified, and of an operation's sides by themselves and beside one another.
fn print_verify(rt: &impl Print, scope: Scope, e: &Expr) -> Result<()> {
    print!(rt; "verify")?;
    print_type(rt, expression_type(scope, e))?;
    if let Form::Binary { left, right, .. } = &e.form {
        print!(rt; " of")?;
        print_type(rt, expression_type(scope, left.get()))?;
        print_type(rt, expression_type(scope, right.get()))?;
        print!(rt; " as")?;
        print_type(rt, common_type(scope, left.get(), right.get()))?;
    }
    Ok(())
}

fn print_type(rt: &impl Print, ivy_type: Option<IvyType>) -> Result<()> {
    match ivy_type {
        Some(ivy_type) => print!(rt; " {ivy_type:?}")?,
        None => print!(rt; " none")?,
    }
    Ok(())
}

fn shown(word: &Word) -> &str {
    str::from_utf8(word.name.as_slice()).unwrap_or("?")
}

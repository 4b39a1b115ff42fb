//! The grammar of Ivy, rule by rule over the tokens of a text.

ghost use Rattle.grammars.specs.Heads.{expect};
ghost use Rattle.ivy_syntax.specs.Lexeme.{placed, tokens};
ghost use Rattle.ivy_syntax.specs.Descent.{expr_at, named, listed, group, params, amount_by, req_by, requires_by};
ghost use Rattle.ivy_syntax.specs.Descent.{stmt_by, stmts_by, verify_by, lock_by, unlock, clause_by, clauses_by};
ghost use Rattle.ivy_syntax.specs.Descent.{clause_body_by, contract_by, contract_body_by, contracts_by, file_at};
ghost use Rattle.ivy_syntax.specs.Agreement.{Agrees};

use crate::expr::expr;
use crate::lexeme::{Keyword, Kind, Lexeme, Symbol};
use crate::lists::{Part, repeated, separated};
use crate::reading::{Read, Rest, Wanted, expected, name, next_if};
use crate::tree::{
    ClauseTree, ClauseTrees, Contract, Contracts, Group, Groups, Req, Reqs, Source, Stmt, Stmts,
    Word, Words,
};
use std::alloc::Global;

// ---- parameters

// A name, of a list.
struct NamePart;

impl Part for NamePart {
    type Tree = Word;

    ghost rule = { λ part. expect named };

    fn read<'a>(&self, alloc: Global, rest: Rest<'a>) -> Read<'a, Word> {
        name(alloc, rest)
    }
}

// names ":" name
fn group<'a>(alloc: Global, rest: Rest<'a>) -> Read<'a, Group>
    ensures { Agrees result (group (tokens rest.now)) }
{
    let (names, rest) = separated(alloc, &NamePart, rest)?;
    let (_, rest) = expected(rest, Wanted::Sign(Symbol::Colon))?;
    let (kind, rest) = name(alloc, rest)?;
    Ok((Group { names, kind }, rest))
}

// A group, of a list.
struct GroupPart;

impl Part for GroupPart {
    type Tree = Group;

    ghost rule = { λ part. group };

    fn read<'a>(&self, alloc: Global, rest: Rest<'a>) -> Read<'a, Group> {
        group(alloc, rest)
    }
}

// Parameters, after their parenthesis, and the one after them.
fn params<'a>(alloc: Global, rest: Rest<'a>) -> Read<'a, Groups>
    ensures { Agrees result (params (tokens rest.now)) }
{
    match next_if(rest, Wanted::Sign(Symbol::CloseParen)) {
        Some((_, behind)) => Ok((Groups::new(alloc), behind)),
        None => {
            let (items, rest) = separated(alloc, &GroupPart, rest)?;
            let (_, rest) = expected(rest, Wanted::Sign(Symbol::CloseParen))?;
            Ok((items, rest))
        }
    }
}

// ---- requirements

// An amount, and of what.
fn amount<'a>(alloc: Global, rest: Rest<'a>, depth: u64, name: Word) -> Read<'a, Req>
    ensures { Agrees result (amount_by (expr_at depth) name (tokens rest.now)) }
{
    let (amount, rest) = expr(alloc, rest, depth)?;
    let (_, rest) = expected(rest, Wanted::Word(Keyword::Of))?;
    let (asset, rest) = expr(alloc, rest, depth)?;
    let req = Req {
        name,
        amount,
        asset,
    };
    Ok((req, rest))
}

// name ":" expr "of" expr
fn req<'a>(alloc: Global, rest: Rest<'a>, depth: u64) -> Read<'a, Req>
    ensures { Agrees result (req_by (expr_at depth) (tokens rest.now)) }
{
    let (name, rest) = name(alloc, rest)?;
    let (_, rest) = expected(rest, Wanted::Sign(Symbol::Colon))?;
    amount(alloc, rest, depth, name)
}

// A requirement, of a list.
#[derive(Drop)]
struct ReqPart {
    depth: u64,
}

impl Part for ReqPart {
    type Tree = Req;

    ghost rule = { λ part. req_by (expr_at part.depth) };

    fn read<'a>(&self, alloc: Global, rest: Rest<'a>) -> Read<'a, Req> {
        req(alloc, rest, self.depth)
    }
}

// [ "requires" reqs ]
fn requires_part<'a>(alloc: Global, rest: Rest<'a>, depth: u64) -> Read<'a, Reqs>
    ensures { Agrees result (requires_by (expr_at depth) (tokens rest.now)) }
{
    match next_if(rest, Wanted::Word(Keyword::Requires)) {
        Some((_, behind)) => separated(alloc, &ReqPart { depth }, behind),
        None => Ok((Reqs::new(alloc), rest)),
    }
}

// ---- statements

// After `verify`.
fn verify<'a>(alloc: Global, rest: Rest<'a>, depth: u64, at: u64) -> Read<'a, Stmt>
    ensures { Agrees result (verify_by (expr_at depth) at (tokens rest.now)) }
{
    let (expr, rest) = expr(alloc, rest, depth)?;
    Ok((Stmt::Verify { at, expr }, rest))
}

// After `lock`.
fn lock<'a>(alloc: Global, rest: Rest<'a>, depth: u64, at: u64) -> Read<'a, Stmt>
    ensures { Agrees result (lock_by (expr_at depth) at (tokens rest.now)) }
{
    let (value, rest) = name(alloc, rest)?;
    let (_, rest) = expected(rest, Wanted::Word(Keyword::With))?;
    let (program, rest) = expr(alloc, rest, depth)?;
    let stmt = Stmt::Lock { at, value, program };
    Ok((stmt, rest))
}

// After `unlock`.
fn unlock<'a>(alloc: Global, rest: Rest<'a>, at: u64) -> Read<'a, Stmt>
    ensures { Agrees result (unlock at (tokens rest.now)) }
{
    let (value, rest) = name(alloc, rest)?;
    Ok((Stmt::Unlock { at, value }, rest))
}

// A statement, after its keyword.
fn stmt<'a>(alloc: Global, rest: Rest<'a>, depth: u64, first: Lexeme<'a>) -> Read<'a, Stmt>
    ensures { Agrees result (stmt_by (expr_at depth) (placed first.entry).0 first.entry.at (tokens rest.now)) }
{
    match first.kind {
        Kind::Word(Keyword::Verify) => verify(alloc, rest, depth, first.at),
        Kind::Word(Keyword::Lock) => lock(alloc, rest, depth, first.at),
        _ => unlock(alloc, rest, first.at),
    }
}

// stmt { stmt }
fn stmts<'a>(alloc: Global, rest: Rest<'a>, depth: u64) -> Read<'a, Stmts>
    ensures { Agrees result (stmts_by (expr_at depth) (tokens rest.now)) }
{
    let (keyword, behind) = expected(rest, Wanted::Statement)?;
    let (first, mut rest) = stmt(alloc, behind, depth, keyword)?;
    let mut items = Stmts::new(alloc);
    items.push(first)?;
    while let Some((keyword, behind)) = next_if(rest, Wanted::Statement) {
        let (item, left_over) = stmt(alloc, behind, depth, keyword)?;
        items.push(item)?;
        rest = left_over;
    }
    Ok((items, rest))
}

// ---- clauses

// The requirements of a clause, and its statements in braces.
fn clause_body<'a>(
    alloc: Global,
    rest: Rest<'a>,
    depth: u64,
    name: Word,
    params: Groups,
) -> Read<'a, ClauseTree>
    ensures { Agrees result
        (clause_body_by (expr_at depth) name params (tokens rest.now)) }
{
    let (reqs, rest) = requires_part(alloc, rest, depth)?;
    let (_, rest) = expected(rest, Wanted::Sign(Symbol::OpenBrace))?;
    let (stmts, rest) = stmts(alloc, rest, depth)?;
    let (_, rest) = expected(rest, Wanted::Sign(Symbol::CloseBrace))?;
    let clause = ClauseTree {
        name,
        params,
        reqs,
        stmts,
    };
    Ok((clause, rest))
}

// A clause, after its keyword.
fn clause<'a>(alloc: Global, rest: Rest<'a>, depth: u64) -> Read<'a, ClauseTree>
    ensures { Agrees result (clause_by (expr_at depth) (tokens rest.now)) }
{
    let (name, rest) = name(alloc, rest)?;
    let (_, rest) = expected(rest, Wanted::Sign(Symbol::OpenParen))?;
    let (params, rest) = params(alloc, rest)?;
    clause_body(alloc, rest, depth, name, params)
}

// A clause, after its keyword.
#[derive(Drop)]
struct ClausePart {
    depth: u64,
}

impl Part for ClausePart {
    type Tree = ClauseTree;

    ghost rule = { λ part. clause_by (expr_at part.depth) };

    fn read<'a>(&self, alloc: Global, rest: Rest<'a>) -> Read<'a, ClauseTree> {
        clause(alloc, rest, self.depth)
    }
}

// ---- contracts

// What a contract locks, and its clauses in braces.
fn contract_body<'a>(
    alloc: Global,
    rest: Rest<'a>,
    depth: u64,
    title: Word,
    params: Groups,
) -> Read<'a, Contract>
    ensures { Agrees result
        (contract_body_by (expr_at depth) title params (tokens rest.now)) }
{
    let (_, rest) = expected(rest, Wanted::Word(Keyword::Locks))?;
    let (value, rest) = name(alloc, rest)?;
    let (_, rest) = expected(rest, Wanted::Sign(Symbol::OpenBrace))?;
    let (clauses, rest) = repeated(alloc, Keyword::Clause, &ClausePart { depth }, rest)?;
    let (_, rest) = expected(rest, Wanted::Sign(Symbol::CloseBrace))?;
    let contract = Contract {
        name: title,
        params,
        value,
        clauses,
    };
    Ok((contract, rest))
}

// A contract, after its keyword.
fn contract<'a>(alloc: Global, rest: Rest<'a>, depth: u64) -> Read<'a, Contract>
    ensures { Agrees result (contract_by (expr_at depth) (tokens rest.now)) }
{
    let (name, rest) = name(alloc, rest)?;
    let (_, rest) = expected(rest, Wanted::Sign(Symbol::OpenParen))?;
    let (params, rest) = params(alloc, rest)?;
    contract_body(alloc, rest, depth, name, params)
}

// A contract, after its keyword.
#[derive(Drop)]
struct ContractPart {
    depth: u64,
}

impl Part for ContractPart {
    type Tree = Contract;

    ghost rule = { λ part. contract_by (expr_at part.depth) };

    fn read<'a>(&self, alloc: Global, rest: Rest<'a>) -> Read<'a, Contract> {
        contract(alloc, rest, self.depth)
    }
}

/// A whole source, and the tokens after it.
pub(crate) fn file<'a>(alloc: Global, rest: Rest<'a>, depth: u64) -> Read<'a, Source>
    ensures { Agrees result (file_at depth (tokens rest.now)) }
{
    let (contracts, rest) = repeated(alloc, Keyword::Contract, &ContractPart { depth }, rest)?;
    Ok((Source { contracts }, rest))
}

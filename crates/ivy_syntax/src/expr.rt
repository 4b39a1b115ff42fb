//! Expressions, level by level over the tokens of a text. So many parentheses, calls, lists and unary operators may
//! stand within one another as the depth says.

ghost use Rattle.std.specs.Prelude.{◌≡◌};
ghost use Rattle.grammars.specs.Perhaps.{closed};
ghost use Rattle.ivy_syntax.specs.Lexeme.{tokens};
ghost use Rattle.ivy_syntax.specs.Grammar.{below};
ghost use Rattle.ivy_syntax.specs.Descent.{chain_by, level_by, unary_at, expr_at, listed, args_by, name_by};
ghost use Rattle.ivy_syntax.specs.Descent.{bracket_by, paren_by, prefix_by, too_deep_name, the_sign};
ghost use Rattle.ivy_syntax.specs.Agreement.{Agrees};
ghost use Rattle.ivy_syntax.specs.declared.level.Level.TheVariants.{Comparison};

use crate::level::Level;
use crate::lexeme::Symbol;
use crate::reading::{
    Head, Read, Rest, Stop, Wanted, alone, enclosed, expected, head_of, joined, next, next_if,
    prefixed,
};
use crate::tree::{Expr, Exprs, Form, Op, Text};
use std::alloc::Global;

/// An expression.
pub(crate) fn expr<'a>(alloc: Global, rest: Rest<'a>, depth: u64) -> Read<'a, Expr>
    ensures { Agrees result (expr_at depth (tokens rest.now)) }
{
    at_level(alloc, rest, depth, Level::Or)
}

// A name where no call may stand.
fn name_alone<'a>(rest: Rest<'a>, at: u64, name: Text) -> Read<'a, Expr>
    ensures { Agrees result (too_deep_name at name (tokens rest.now)) }
{
    match next_if(rest, Wanted::Sign(Symbol::OpenParen)) {
        Some(_) => Err(Stop::Deep(rest)),
        None => Ok((alone(at, Form::Name(name)), rest)),
    }
}

// An expression of a level.
#[cycle(rules)]
fn at_level<'a>(alloc: Global, rest: Rest<'a>, depth: u64, level: Level) -> Read<'a, Expr>
    ensures { Agrees result (level_by level (unary_at depth) (tokens rest.now)) }
{
    match level {
        Level::Or => chain(alloc, rest, depth, Level::Or),
        Level::And => chain(alloc, rest, depth, Level::And),
        Level::Comparison => comparison(alloc, rest, depth),
        Level::Shift => chain(alloc, rest, depth, Level::Shift),
        Level::Sum => chain(alloc, rest, depth, Level::Sum),
        Level::Term => chain(alloc, rest, depth, Level::Term),
        Level::Unary => unary(alloc, rest, depth),
    }
}

// operand { operator operand }
#[cycle(rules)]
fn chain<'a>(alloc: Global, rest: Rest<'a>, depth: u64, joins: Level) -> Read<'a, Expr>
    ensures { Agrees result (chain_by joins (level_by (below joins) (unary_at depth)) (tokens rest.now)) }
{
    let (mut left, mut rest) = at_level(alloc, rest, depth, joins.below())?;
    while let Some((operator, behind)) = next_if(rest, Wanted::Joins(joins)) {
        let (right, left_over) = at_level(alloc, behind, depth, joins.below())?;
        left = joined(alloc, operator, left, right)?;
        rest = left_over;
    }
    Ok((left, rest))
}

// shift [ operator shift ]
#[cycle(rules)]
fn comparison<'a>(alloc: Global, rest: Rest<'a>, depth: u64) -> Read<'a, Expr>
    ensures { Agrees result (level_by Comparison (unary_at depth) (tokens rest.now)) }
{
    let (left, rest) = at_level(alloc, rest, depth, Level::Shift)?;
    match next_if(rest, Wanted::Joins(Level::Comparison)) {
        Some((operator, behind)) => {
            let (right, rest) = at_level(alloc, behind, depth, Level::Shift)?;
            Ok((joined(alloc, operator, left, right)?, rest))
        }
        None => Ok((left, rest)),
    }
}

// An operand. Where the depth is 0 nothing may stand within it.
#[cycle(rules)]
fn unary<'a>(alloc: Global, rest: Rest<'a>, depth: u64) -> Read<'a, Expr>
    ensures { Agrees result (unary_at depth (tokens rest.now)) }
{
    let Some((first, behind)) = next(rest) else {
        return Err(Stop::Wrong(rest));
    };
    let head = head_of(alloc, first)?;
    if depth == 0 {
        return match head {
            Head::Literal(form) => Ok((alone(first.at, form), behind)),
            Head::Named(name) => name_alone(behind, first.at, name),
            Head::NoStart => Err(Stop::Wrong(rest)),
            Head::Paren => Err(Stop::Deep(rest)),
            Head::Bracket => Err(Stop::Deep(rest)),
            Head::Prefix(_) => Err(Stop::Deep(rest)),
        };
    }
    let depth = depth - 1;
    match head {
        Head::Literal(form) => Ok((alone(first.at, form), behind)),
        Head::Named(name) => named(alloc, behind, depth, first.at, name),
        Head::Paren => paren(alloc, behind, depth, first.at),
        Head::Bracket => bracket(alloc, behind, depth, first.at),
        Head::Prefix(op) => prefix(alloc, behind, depth, first.at, op),
        Head::NoStart => Err(Stop::Wrong(rest)),
    }
}

// A name, or a call of it.
#[cycle(rules)]
fn named<'a>(alloc: Global, rest: Rest<'a>, depth: u64, at: u64, name: Text) -> Read<'a, Expr>
    ensures { Agrees result (name_by (expr_at depth) at name (tokens rest.now)) }
{
    match next_if(rest, Wanted::Sign(Symbol::OpenParen)) {
        Some((_, behind)) => {
            let (args, rest) = args(alloc, behind, depth)?;
            Ok((alone(at, Form::Call { name, args }), rest))
        }
        None => Ok((alone(at, Form::Name(name)), rest)),
    }
}

// The arguments of a call, and the `)` after them.
#[cycle(rules)]
fn args<'a>(alloc: Global, rest: Rest<'a>, depth: u64) -> Read<'a, Exprs>
    ensures { Agrees result (args_by (expr_at depth) (tokens rest.now)) }
{
    match next_if(rest, Wanted::Sign(Symbol::CloseParen)) {
        Some((_, behind)) => Ok((Exprs::new(alloc), behind)),
        None => closed_members(alloc, rest, depth, Symbol::CloseParen),
    }
}

// Members, and the sign after them.
#[cycle(rules)]
fn closed_members<'a>(alloc: Global, rest: Rest<'a>, depth: u64, close: Symbol) -> Read<'a, Exprs>
    ensures { Agrees result (closed (the_sign close) (listed (expr_at depth)) (tokens rest.now)) }
{
    let (items, rest) = members(alloc, rest, depth)?;
    let (_, rest) = expected(rest, Wanted::Sign(close))?;
    Ok((items, rest))
}

// expr { "," expr }
#[cycle(rules)]
fn members<'a>(alloc: Global, rest: Rest<'a>, depth: u64) -> Read<'a, Exprs>
    ensures { Agrees result (listed (expr_at depth) (tokens rest.now)) }
{
    let (first, mut rest) = at_level(alloc, rest, depth, Level::Or)?;
    let mut items = Exprs::new(alloc);
    items.push(first)?;
    while let Some((_, behind)) = next_if(rest, Wanted::Sign(Symbol::Comma)) {
        let (item, left_over) = at_level(alloc, behind, depth, Level::Or)?;
        items.push(item)?;
        rest = left_over;
    }
    Ok((items, rest))
}

// A list, after its bracket.
#[cycle(rules)]
fn bracket<'a>(alloc: Global, rest: Rest<'a>, depth: u64, at: u64) -> Read<'a, Expr>
    ensures { Agrees result (bracket_by (expr_at depth) at (tokens rest.now)) }
{
    let (items, rest) = closed_members(alloc, rest, depth, Symbol::CloseBracket)?;
    Ok((alone(at, Form::Members(items)), rest))
}

// An expression in parentheses, after the first.
#[cycle(rules)]
fn paren<'a>(alloc: Global, rest: Rest<'a>, depth: u64, at: u64) -> Read<'a, Expr>
    ensures { Agrees result (paren_by (expr_at depth) at (tokens rest.now)) }
{
    let (inner, rest) = at_level(alloc, rest, depth, Level::Or)?;
    let (_, rest) = expected(rest, Wanted::Sign(Symbol::CloseParen))?;
    Ok((enclosed(at, inner), rest))
}

// An operand after an operator.
#[cycle(rules)]
fn prefix<'a>(alloc: Global, rest: Rest<'a>, depth: u64, at: u64, op: Op) -> Read<'a, Expr>
    ensures { Agrees result (prefix_by (unary_at depth) at op (tokens rest.now)) }
{
    let (arg, rest) = unary(alloc, rest, depth)?;
    Ok((prefixed(alloc, at, op, arg)?, rest))
}

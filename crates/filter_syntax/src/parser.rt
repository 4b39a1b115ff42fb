//! The grammar of filters, rule by rule over the tokens of a text.
ghost use Rattle.std.specs.Prelude.{◌≡◌, false, map, slice_range};
ghost use Rattle.grammars.specs.Heads.{expect};
ghost use Rattle.filter_syntax.specs.Lexing.{seen, between};
ghost use Rattle.filter_syntax.specs.Descent.{Agrees, AgreesOn, opens, closes, equals, value_of, comparison};
ghost use Rattle.filter_syntax.specs.Descent.{enclosed_by, scope_by, alternatives_by, conjunction_by, unit_at};
ghost use Rattle.filter_syntax.specs.Descent.{is_and, is_or, Follows};
ghost use Rattle.filter_syntax.specs.declared.parser.Stop.TheVariants as stops;

use crate::tokens::{Kind, Lexeme};
use crate::{Cond, FilterValue, Text};
use sqlite_items::Boxed;
use std::alloc::Global;
use wire::NoMemory;

/// Why parsing stopped.
#[derive(Clone, Copy)]
pub(crate) enum Stop<'a> {
    /// No text goes on with these tokens, after those before them.
    Wrong(&'a [Lexeme]),
    NoMemory,
}

impl<'a> From<NoMemory> for Stop<'a> {
    ghost from_gives = { λ _ stop. stop ≡ stops.NoMemory };

    fn from(_: NoMemory) -> Stop<'a> {
        Stop::NoMemory
    }
}

/// A part of a filter, and the tokens after it.
pub(crate) type Parsed<'a, T> = Result<(T, &'a [Lexeme]), Stop<'a>>;

// The bytes of a token.
fn bytes_of(text: &[u8], lexeme: Lexeme) -> &[u8]
    ensures { result.now ≡ slice_range text.now lexeme.from lexeme.to }
{
    let to = lexeme.to.min(text.len());
    let from = lexeme.from.min(to);
    &text[from..to]
}

// The bytes between the quotes.
fn unquoted(bytes: &[u8]) -> &[u8]
    ensures { result.now ≡ between bytes.now }
{
    match bytes {
        [_, inner @ .., _] => inner,
        _ => &[],
    }
}

// The tokens after a `(`.
fn expect_open<'a>(text: &[u8], rest: &'a [Lexeme]) -> Result<&'a [Lexeme], Stop<'a>>
    ensures { AgreesOn text.now result (expect opens (map (seen text.now) rest.now)) }
{
    match rest {
        [
            Lexeme {
                kind: Kind::Open,
                ..
            },
            behind @ ..,
        ] => Ok(behind),
        _ => Err(Stop::Wrong(rest)),
    }
}

// The tokens after a `)`.
fn expect_close<'a>(text: &[u8], rest: &'a [Lexeme]) -> Result<&'a [Lexeme], Stop<'a>>
    ensures { AgreesOn text.now result (expect closes (map (seen text.now) rest.now)) }
{
    match rest {
        [
            Lexeme {
                kind: Kind::Close,
                ..
            },
            behind @ ..,
        ] => Ok(behind),
        _ => Err(Stop::Wrong(rest)),
    }
}

// The tokens after a `=`.
fn expect_equals<'a>(text: &[u8], rest: &'a [Lexeme]) -> Result<&'a [Lexeme], Stop<'a>>
    ensures { AgreesOn text.now result (expect equals (map (seen text.now) rest.now)) }
{
    match rest {
        [
            Lexeme {
                kind: Kind::Equals,
                ..
            },
            behind @ ..,
        ] => Ok(behind),
        _ => Err(Stop::Wrong(rest)),
    }
}

// The value of a comparison.
fn value<'a>(alloc: Global, text: &[u8], rest: &'a [Lexeme]) -> Parsed<'a, FilterValue>
    ensures { Agrees text.now result (expect value_of (map (seen text.now) rest.now)) }
{
    let [first, behind @ ..] = rest else {
        return Err(Stop::Wrong(rest));
    };
    match first.kind {
        Kind::Quoted => {
            let bytes = unquoted(bytes_of(text, *first));
            Ok((FilterValue::Quoted(Text::from_slice(alloc, bytes)?), behind))
        }
        Kind::Number(n) => Ok((FilterValue::Number(n), behind)),
        Kind::Param(n) => Ok((FilterValue::Param(n), behind)),
        _ => Err(Stop::Wrong(rest)),
    }
}

// A comparison, of which the name has been read.
fn comparison<'a>(alloc: Global, text: &[u8], name: &[u8], rest: &'a [Lexeme]) -> Parsed<'a, Cond>
    ensures { Agrees text.now result (comparison name.now (map (seen text.now) rest.now)) }
{
    let rest = expect_equals(text, rest)?;
    let (value, rest) = value(alloc, text, rest)?;
    let name = Text::from_slice(alloc, name)?;
    Ok((Cond::Is { name, value }, rest))
}

// The tokens after an `AND` that comes next.
fn after_and<'a>(text: &[u8], rest: &'a [Lexeme]) -> Option<&'a [Lexeme]>
    ensures { Follows is_and text.now rest.now result }
{
    match rest {
        [
            Lexeme {
                kind: Kind::And,
                ..
            },
            behind @ ..,
        ] => Some(behind),
        _ => None,
    }
}

// The tokens after an `OR` that comes next.
fn after_or<'a>(text: &[u8], rest: &'a [Lexeme]) -> Option<&'a [Lexeme]>
    ensures { Follows is_or text.now rest.now result }
{
    match rest {
        [Lexeme { kind: Kind::Or, .. }, behind @ ..] => Some(behind),
        _ => None,
    }
}

/// A condition: `and { "OR" and }`, in which so many parentheses and scopes may stand within one another.
#[cycle(rules)]
pub(crate) fn alternatives<'a>(
    alloc: Global,
    text: &[u8],
    rest: &'a [Lexeme],
    depth: u64,
    scopes: bool,
) -> Parsed<'a, Cond>
    ensures { Agrees text.now result (alternatives_by (unit_at depth scopes) (map (seen text.now) rest.now)) }
{
    let (mut cond, mut rest) = conjunction(alloc, text, rest, depth, scopes)?;
    while let Some(behind) = after_or(text, rest) {
        let (right, left_over) = conjunction(alloc, text, behind, depth, scopes)?;
        cond = Cond::Or(Boxed::new(alloc, cond)?, Boxed::new(alloc, right)?);
        rest = left_over;
    }
    Ok((cond, rest))
}

// unit { "AND" unit }
#[cycle(rules)]
fn conjunction<'a>(
    alloc: Global,
    text: &[u8],
    rest: &'a [Lexeme],
    depth: u64,
    scopes: bool,
) -> Parsed<'a, Cond>
    ensures { Agrees text.now result (conjunction_by (unit_at depth scopes) (map (seen text.now) rest.now)) }
{
    let (mut cond, mut rest) = unit(alloc, text, rest, depth, scopes)?;
    while let Some(behind) = after_and(text, rest) {
        let (right, left_over) = unit(alloc, text, behind, depth, scopes)?;
        cond = Cond::And(Boxed::new(alloc, cond)?, Boxed::new(alloc, right)?);
        rest = left_over;
    }
    Ok((cond, rest))
}

// "(" or ")" | ("inputs" | "outputs") "(" or ")" | attribute "=" value
#[cycle(rules)]
fn unit<'a>(
    alloc: Global,
    text: &[u8],
    rest: &'a [Lexeme],
    depth: u64,
    scopes: bool,
) -> Parsed<'a, Cond>
    ensures { Agrees text.now result (unit_at depth scopes (map (seen text.now) rest.now)) }
{
    let [first, behind @ ..] = rest else {
        return Err(Stop::Wrong(rest));
    };
    match first.kind {
        Kind::Name => comparison(alloc, text, bytes_of(text, *first), behind),
        Kind::Open if depth > 0 => enclosed(alloc, text, behind, depth - 1, scopes),
        Kind::Inputs if depth > 0 && scopes => scope(alloc, text, behind, depth - 1, true),
        Kind::Outputs if depth > 0 && scopes => scope(alloc, text, behind, depth - 1, false),
        _ => Err(Stop::Wrong(rest)),
    }
}

// A condition and the `)` after it.
#[cycle(rules)]
fn enclosed<'a>(
    alloc: Global,
    text: &[u8],
    rest: &'a [Lexeme],
    depth: u64,
    scopes: bool,
) -> Parsed<'a, Cond>
    ensures { Agrees text.now result (enclosed_by (alternatives_by (unit_at depth scopes))
        (map (seen text.now) rest.now)) }
{
    let (cond, rest) = alternatives(alloc, text, rest, depth, scopes)?;
    let rest = expect_close(text, rest)?;
    Ok((cond, rest))
}

// A scope, of which the word has been read.
#[cycle(rules)]
fn scope<'a>(
    alloc: Global,
    text: &[u8],
    rest: &'a [Lexeme],
    depth: u64,
    inputs: bool,
) -> Parsed<'a, Cond>
    ensures { Agrees text.now result (scope_by inputs (alternatives_by (unit_at depth false))
        (map (seen text.now) rest.now)) }
{
    let rest = expect_open(text, rest)?;
    let (inner, rest) = enclosed(alloc, text, rest, depth, false)?;
    let inner = Boxed::new(alloc, inner)?;
    Ok((Cond::Scope { inputs, inner }, rest))
}

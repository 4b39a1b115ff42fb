//! Filters of rows, read from their texts.
ghost use Rattle.std.specs.Prelude.{◌≡◌, ◌≢◌, ℕ, ◌<◌, length, map, Result, Ok, Err, IfOk, OnOk, IfSome, IfNone};
ghost use Rattle.filter_syntax.specs.declared.tree.Filter.{Filter};
ghost use Rattle.filter_syntax.specs.declared.fault.FilterFault.{FilterFault};
ghost use Rattle.filter_syntax.specs.declared.fault.FilterFault.TheVariants as faults;
ghost use Rattle.filter_syntax.specs.Texts.{AnswersFilter, SyntaxAt, UnknownAt, ReadsAs, AreKnown};
ghost use Rattle.filter_syntax.specs.Lexing.{seen};
ghost use Rattle.filter_syntax.specs.Descent.{Agrees, root_at};
ghost use Rattle.filter_syntax.specs.Texts.{limited_to, HasTokens, has_scopes};
ghost use Rattle.filter_syntax.specs.Limiting.{IsLimited, ReadsOr, AnswersOr, Closes, IsSyntaxOf};

use crate::attributes::{first_unknown, nth_name};
use crate::parser::{Parsed, Stop, alternatives};
use crate::tokens::{Kind, Lexeme, mark, tokenize};
use crate::{Cond, Filter, FilterFault, RowKind, laws};
use std::alloc::Global;
use wire::NoMemory;

/// How many parentheses and scopes may stand within one another.
const NESTING: u64 = 32;

/// How many comparisons a filter may have.
const COMPARISONS: u64 = 256;

/// The filter of rows of a kind that a text is, over the attributes of such rows. AND binds stronger than OR, and both
/// group to the left; at most 32 parentheses and scopes stand within one another, and at most 256 comparisons in all.
pub fn parse_filter(alloc: Global, kind: RowKind, text: &str) -> Result<Filter, FilterFault>
    // What is read is the filter of the text, and rows of the kind have its attributes.
    ensures found { IfOk result (λ filter. AnswersFilter kind text.now (Ok filter)) }

    // When each fault comes.
    ensures syntax { (at : ℕ) → result ≡ Err (faults.Syntax at) → SyntaxAt kind text.now at }
    ensures unknown { (at : ℕ) → result ≡ Err (faults.UnknownAttribute at) → UnknownAt kind text.now at }

    // What the text is read as is reported, unless memory runs out.
    ensures told { (answer : Result Filter FilterFault)
        → AnswersFilter kind text.now answer
        → result ≢ Err faults.NoMemory
        → result ≡ answer }
{
    laws::filters();
    parse_bytes(alloc, kind, text.as_bytes())
}

// The filter of a text, or its fault.
fn parse_bytes(alloc: Global, kind: RowKind, text: &[u8]) -> Result<Filter, FilterFault>
    ensures { AnswersOr kind text.now result }
{
    let lexemes = limited_tokens(alloc, text)?;
    let root = parse_tokens(alloc, kind, text, &lexemes)?;
    match unknown_place(kind, text, &root, &lexemes) {
        Some(at) => Err(FilterFault::UnknownAttribute { at }),
        None => Ok(Filter { kind, root }),
    }
}

// The place of the first attribute that rows of the kind do not have.
fn unknown_place(kind: RowKind, text: &[u8], root: &Option<Cond>, lexemes: &[Lexeme]) -> Option<u64>
    requires tokens { HasTokens text.now (map (seen text.now) lexemes.now) }
    requires reads { ReadsAs kind text.now root.now }
    ensures some { IfSome result (λ at. UnknownAt kind text.now at) }
    ensures none { IfNone result (AreKnown kind root.now) }
{
    match root {
        Some(cond) => nth_name(lexemes, first_unknown(kind, cond)?),
        None => None,
    }
}

// The tokens of a text up to its comparison past the last that it may have.
fn limited_tokens(alloc: Global, text: &[u8]) -> Result<Vec<Lexeme>, NoMemory>
    ensures { IfOk result (λ lexemes. HasTokens text.now (map (seen text.now) lexemes.items)) }
{
    let mut lexemes = tokenize(alloc, text)?;
    cut_at_limit(text, &mut lexemes, COMPARISONS)?;
    Ok(lexemes)
}

// Where the first token of a comparison past so many stands.
fn first_past(text: &[u8], lexemes: &[Lexeme], most: u64) -> Option<usize>
    ensures within { IfSome result (λ at. at < length lexemes.now) }
    ensures some { IfSome result (λ at. IsLimited text.now lexemes.now most at) }
    ensures none { IfNone result (limited_to most (map (seen text.now) lexemes.now)
        ≡ map (seen text.now) lexemes.now) }
{
    let mut left = most;
    for (k, lexeme) in lexemes.iter().enumerate() {
        if let Kind::Name = lexeme.kind {
            if left == 0 {
                return Some(k);
            }
            left -= 1;
        }
    }
    None
}

// Makes the first token of a comparison past so many the last, as one with which no token begins.
fn cut_at_limit(text: &[u8], lexemes: &mut Vec<Lexeme>, most: u64) -> Result<(), NoMemory>
    ensures { OnOk result (map (seen text.now) lexemes.new.items
        ≡ limited_to most (map (seen text.now) lexemes.old.items)) }
{
    if let Some(at) = first_past(text, lexemes, most) {
        let from = lexemes[at].from;
        lexemes.truncate(at);
        lexemes.push(mark(Kind::Bad, from))?;
    }
    Ok(())
}

fn has_scopes(kind: RowKind) -> bool
    ensures { result ≡ has_scopes kind }
{
    match kind {
        RowKind::Transactions => true,
        RowKind::Outputs | RowKind::Assets => false,
    }
}

// The condition of a filter, where it has one.
fn parse_root<'a>(
    alloc: Global,
    text: &[u8],
    rest: &'a [Lexeme],
    scopes: bool,
) -> Parsed<'a, Option<Cond>>
    ensures { Agrees text.now result (root_at scopes (map (seen text.now) rest.now)) }
{
    match rest {
        [] => Ok((None, rest)),
        [
            Lexeme {
                kind: Kind::End,
                ..
            },
            ..
        ] => Ok((None, rest)),
        [
            Lexeme {
                kind: Kind::Bad,
                ..
            },
            ..
        ] => Ok((None, rest)),
        _ => {
            let (cond, rest) = alternatives(alloc, text, rest, NESTING, scopes)?;
            Ok((Some(cond), rest))
        }
    }
}

// The condition of the filter that a text with these tokens is, where it has one.
fn parse_tokens(
    alloc: Global,
    kind: RowKind,
    text: &[u8],
    lexemes: &[Lexeme],
) -> Result<Option<Cond>, FilterFault>
    requires { HasTokens text.now (map (seen text.now) lexemes.now) }
    ensures { ReadsOr kind text.now result }
{
    match parse_root(alloc, text, lexemes, has_scopes(kind)) {
        Ok((root, rest)) => expect_end(root, rest),
        Err(Stop::Wrong(rest)) => Err(syntax_fault(rest)),
        Err(Stop::NoMemory) => Err(FilterFault::NoMemory),
    }
}

// What was parsed, if the text ends after it.
fn expect_end(root: Option<Cond>, rest: &[Lexeme]) -> Result<Option<Cond>, FilterFault>
    ensures { Closes root rest.now result }
{
    match rest {
        [
            Lexeme {
                kind: Kind::End,
                ..
            },
            ..
        ] => Ok(root),
        _ => Err(syntax_fault(rest)),
    }
}

// The fault of a text whose first wrong token is the first of these.
fn syntax_fault(rest: &[Lexeme]) -> FilterFault
    ensures { IsSyntaxOf rest.now result }
{
    match rest {
        [first, ..] => FilterFault::Syntax {
            at: first.from as u64,
        },
        [] => FilterFault::Syntax { at: 0 },
    }
}

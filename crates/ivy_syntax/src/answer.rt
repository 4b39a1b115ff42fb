//! Texts, read as sources.

ghost use Rattle.std.specs.Prelude.{◌≡◌, ◌≢◌, ℕ, ◌<◌, List, length, Result, Ok, Err, IfOk, OnOk, IfSome};
ghost use Rattle.ivy_syntax.specs.Lexeme.{tokens};
ghost use Rattle.ivy_syntax.specs.declared.tree.Source.{Source};
ghost use Rattle.ivy_syntax.specs.declared.fault.ParseFault.{ParseFault};
ghost use Rattle.ivy_syntax.specs.declared.fault.ParseFault.TheVariants as faults;
ghost use Rattle.ivy_syntax.specs.Texts.{ReadsAs, SyntaxAt, TooManyAt, AnswersText};
ghost use Rattle.ivy_syntax.specs.Answering as answering;

use crate::lexeme::{Kind, Lexeme};
use crate::limits::first_passed;
use crate::parser::file;
use crate::reading::Stop;
use crate::tokens::{point, tokenize};
use crate::{ParseFault, Source};
use std::alloc::Global;
use wire::NoMemory;

/// How many parentheses, calls, lists and unary operators may stand within one another.
const NESTING: u64 = 32;

/// The number of the limit of nesting.
const NESTING_LIMIT: u8 = 7;

/// The source that a text is. It has at most 16 contracts; a contract has at most 32 parameters and 16 clauses; a
/// clause has at most 32 parameters, 8 requirements and 64 statements; a list or call has at most 16 members; an
/// expression has at most 256 operators, and at most 32 parentheses, calls, lists and unary operators within one
/// another.
pub fn parse(alloc: Global, text: &[u8]) -> Result<Source, ParseFault>
    // What is read is the source that the text is.
    ensures found { IfOk result (λ source. ReadsAs text.now source) }

    // When each fault comes.
    ensures syntax { (at : ℕ) → result ≡ Err (faults.Syntax at) → SyntaxAt text.now at }
    ensures too_many { (what at : ℕ) → result ≡ Err (faults.TooMany what at) → TooManyAt text.now what at }

    // The answer for the text is given, unless memory runs out.
    ensures told { (answer : Result Source ParseFault)
        → AnswersText text.now answer
        → result ≢ Err faults.NoMemory
        → result ≡ answer }
{
    answer(alloc, text)
}

// The source that a text is, or its fault.
fn answer(alloc: Global, text: &[u8]) -> Result<Source, ParseFault>
    ensures { answering.AnswersOr text.now result }
{
    let mut lexemes = tokenize(alloc, text)?;
    let passed = first_passed(alloc, &lexemes)?;
    cut_after(&mut lexemes, passed)?;
    read(alloc, &lexemes, passed)
}

// Puts `Bad` in the place of the lexemes after the one that passes a counted limit, so that no tree grows past it.
fn cut_after(lexemes: &mut Vec<Lexeme<'_>>, passed: Option<(usize, u8)>) -> Result<(), NoMemory>
    requires { IfSome passed (λ found. found.0 < length lexemes.now.items) }
    ensures cut { OnOk result (tokens lexemes.new.items ≡ answering.cut_after (tokens lexemes.old.items) passed) }
    ensures within { OnOk result (IfSome passed (λ found. found.0 < length lexemes.new.items)) }
{
    if let Some((at, _)) = passed {
        if at + 1 < lexemes.len() {
            let next = lexemes[at + 1].at;
            lexemes.truncate(at + 1);
            lexemes.push(point(Kind::Bad, next))?;
        }
    }
    Ok(())
}

// The source that a text is, or its fault, by its lexemes up to the first that passes a counted limit.
fn read(
    alloc: Global,
    lexemes: &[Lexeme<'_>],
    passed: Option<(usize, u8)>,
) -> Result<Source, ParseFault>
    requires { IfSome passed (λ found. found.0 < length lexemes.now) }
    ensures { (text : List ℕ)
        → answering.IsCut text (tokens lexemes.now) passed
        → answering.AnswersOr text result }
{
    match file(alloc, lexemes, NESTING) {
        Ok((source, rest)) => {
            unpassed(lexemes, rest, passed)?;
            if ends(rest) {
                Ok(source)
            } else {
                Err(syntax(rest))
            }
        }
        Err(Stop::Wrong(rest)) => {
            unpassed(lexemes, rest, passed)?;
            Err(syntax(rest))
        }
        Err(Stop::Deep(rest)) => {
            unpassed(lexemes, rest, passed)?;
            Err(ParseFault::TooMany {
                what: NESTING_LIMIT,
                at: place(rest),
            })
        }
        Err(Stop::NoMemory) => Err(ParseFault::NoMemory),
    }
}

// The place of the first of the tokens.
fn place(rest: &[Lexeme<'_>]) -> u64
    ensures { result ≡ answering.first_place (answering.places rest.now) }
{
    match rest {
        [first, ..] => first.at,
        [] => 0,
    }
}

// Whether the text ends here.
fn ends(rest: &[Lexeme<'_>]) -> bool
    ensures { result ≡ answering.ends rest.now }
{
    matches!(
        rest,
        [
            Lexeme {
                kind: Kind::End,
                ..
            },
            ..
        ]
    )
}

// The fault of a text of which the first of the lexemes is the first wrong token.
fn syntax(rest: &[Lexeme<'_>]) -> ParseFault
    ensures { result ≡ faults.Syntax (answering.first_place (answering.places rest.now)) }
{
    ParseFault::Syntax { at: place(rest) }
}

// The fault of a text in which a token before the last ones passes a counted limit.
fn unpassed(
    lexemes: &[Lexeme<'_>],
    rest: &[Lexeme<'_>],
    passed: Option<(usize, u8)>,
) -> Result<(), ParseFault>
    requires { IfSome passed (λ found. found.0 < length lexemes.now) }
    ensures { result ≡ answering.unpassed (answering.places lexemes.now) (length rest.now) passed }
{
    match passed {
        Some((at, what)) if at + rest.len() < lexemes.len() => Err(ParseFault::TooMany {
            what,
            at: lexemes[at].at,
        }),
        _ => Ok(()),
    }
}

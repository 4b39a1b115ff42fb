//! The tokens of a text one by one, and what reading a part of it gives.

ghost use Rattle.std.specs.Prelude.{◌≡◌, ◌≤◌, [], ◌∷◌, MatchOption, IfOk, take, drop, length, ◌-◌};
ghost use Rattle.std.specs.Char.{digit_value};
ghost use Rattle.grammars.specs.Heads.{expect};
ghost use Rattle.grammars.specs.Examples.{chosen};
ghost use Rattle.ivy_syntax.specs.Grammar.{single, before, enclosed};
ghost use Rattle.ivy_syntax.specs.Lexeme.{placed, tokens, value_of};
ghost use Rattle.ivy_syntax.specs.Descent.{is_sign, is_word, joins, begins_stmt, joining, op_of, join, named, start};
ghost use Rattle.ivy_syntax.specs.Agreement.{Agrees, AgreesOn, Follows, test, start_of};
ghost use Rattle.ivy_syntax.specs.declared.reading.Stop.TheVariants as stops;
ghost use Rattle.ivy_syntax.specs.Token as token;

use crate::level::Level;
use crate::lexeme::{Keyword, Kind, Lexeme, Operator, Symbol};
use crate::tree::{Expr, Form, Op, Text, Word};
use sqlite_items::Boxed;
use std::alloc::{AllocError, Global};
use wire::NoMemory;

/// The tokens of a text that are still to be read.
pub(crate) type Rest<'a> = &'a [Lexeme<'a>];

/// Why reading stopped.
#[derive(Clone, Copy)]
pub(crate) enum Stop<'a> {
    /// No source goes on with these tokens, after those before them.
    Wrong(Rest<'a>),
    /// The first of these tokens stands within too many others.
    Deep(Rest<'a>),
    NoMemory,
}

impl<'a> From<NoMemory> for Stop<'a> {
    ghost from_gives = { λ _ stop. stop ≡ stops.NoMemory };

    fn from(_: NoMemory) -> Stop<'a> {
        Stop::NoMemory
    }
}

/// A part of a source, and the tokens after it.
pub(crate) type Read<'a, T> = Result<(T, Rest<'a>), Stop<'a>>;

/// What a token is looked for as: a sign, a word, an operator of a level, or a word that begins a statement.
#[derive(Clone, Copy)]
pub(crate) enum Wanted {
    Sign(Symbol),
    Word(Keyword),
    Joins(Level),
    Statement,
}

/// What an operand begins with.
#[derive(Drop)]
pub(crate) enum Head {
    Literal(Form),
    Named(Text),
    Paren,
    Bracket,
    Prefix(Op),
    NoStart,
}

// ---- what tokens are

fn is_sign(symbol: Symbol, lexeme: Lexeme<'_>) -> bool
    ensures { result ≡ is_sign symbol (placed lexeme.entry) }
{
    match lexeme.kind {
        Kind::Sign(found) => symbol == found,
        _ => false,
    }
}

fn is_word(keyword: Keyword, lexeme: Lexeme<'_>) -> bool
    ensures { result ≡ is_word keyword (placed lexeme.entry) }
{
    match lexeme.kind {
        Kind::Word(found) => keyword == found,
        _ => false,
    }
}

fn begins_stmt(lexeme: Lexeme<'_>) -> bool
    ensures { result ≡ begins_stmt (placed lexeme.entry).0 }
{
    matches!(
        lexeme.kind,
        Kind::Word(Keyword::Verify | Keyword::Lock | Keyword::Unlock)
    )
}

// What a token is between operands.
fn joining(lexeme: Lexeme<'_>) -> Option<(Level, Op)>
    ensures { result ≡ joining (placed lexeme.entry).0 }
{
    match lexeme.kind {
        Kind::Operation(operator) => operator.binary(),
        _ => None,
    }
}

fn joins(level: Level, lexeme: Lexeme<'_>) -> bool
    ensures { result ≡ joins level (placed lexeme.entry) }
{
    match joining(lexeme) {
        Some((found, _)) => level == found,
        None => false,
    }
}

impl Wanted {
    fn is(self, lexeme: Lexeme<'_>) -> bool
        ensures { result ≡ test self (placed lexeme.entry) }
    {
        match self {
            Wanted::Sign(symbol) => is_sign(symbol, lexeme),
            Wanted::Word(keyword) => is_word(keyword, lexeme),
            Wanted::Joins(level) => joins(level, lexeme),
            Wanted::Statement => begins_stmt(lexeme),
        }
    }
}

// ---- the next token

/// The next token, and those after it.
pub(crate) fn next<'a>(rest: Rest<'a>) -> Option<(Lexeme<'a>, Rest<'a>)>
    ensures { MatchOption result (rest.now ≡ []) (λ found. rest.now ≡ found.0 ∷ found.1.now) }
{
    match rest {
        [first, behind @ ..] => Some((*first, behind)),
        _ => None,
    }
}

/// The next token and those after it, if it is what is looked for.
pub(crate) fn next_if<'a>(rest: Rest<'a>, wanted: Wanted) -> Option<(Lexeme<'a>, Rest<'a>)>
    ensures { Follows (test wanted) rest.now result }
{
    let (first, behind) = next(rest)?;
    if wanted.is(first) {
        Some((first, behind))
    } else {
        None
    }
}

/// The next token, which has to be what is looked for, and those after it.
pub(crate) fn expected<'a>(rest: Rest<'a>, wanted: Wanted) -> Read<'a, Lexeme<'a>>
    ensures { AgreesOn result (expect (chosen (test wanted)) (tokens rest.now)) }
{
    match next_if(rest, wanted) {
        Some(found) => Ok(found),
        None => Err(Stop::Wrong(rest)),
    }
}

// ---- bytes

// The bytes but the first and the last.
fn unquoted(bytes: &[u8]) -> &[u8]
    ensures { result.now ≡ take (length bytes.now - 2) (drop 1 bytes.now) }
{
    match bytes {
        [_, inner @ .., _] => inner,
        _ => &[],
    }
}

// The value of a digit, of letters too, and 36 where there is none.
fn digit_value(digit: u8) -> u8
    ensures value { result ≡ digit_value digit }
    ensures small { result ≤ 36 }
{
    match digit {
        b'0'..=b'9' => digit - b'0',
        b'A'..=b'Z' => digit - b'A' + 10,
        b'a'..=b'z' => digit - b'a' + 10,
        _ => 36,
    }
}

// The bytes that pairs of digits stand for.
fn hex_value(alloc: Global, digits: &[u8]) -> Result<Text, NoMemory>
    ensures { IfOk result (λ value. value ≡ value_of digits.now) }
{
    let mut value = Text::new(alloc);
    let mut rest = digits;
    while let [high, low, others @ ..] = rest {
        let byte = 16 * u16::from(digit_value(*high)) + u16::from(digit_value(*low));
        value.push((byte % 256) as u8)?;
        rest = others;
    }
    Ok(value)
}

// The digits of a hex literal, after its first two bytes.
fn digits_of(bytes: &[u8]) -> &[u8]
    ensures { result.now ≡ drop 2 bytes.now }
{
    match bytes {
        [_, _, digits @ ..] => digits,
        _ => &[],
    }
}

// ---- names and operands

/// A name, with its place.
pub(crate) fn name<'a>(alloc: Global, rest: Rest<'a>) -> Read<'a, Word>
    ensures { Agrees result (expect named (tokens rest.now)) }
{
    let Some((first, behind)) = next(rest) else {
        return Err(Stop::Wrong(rest));
    };
    match first.kind {
        Kind::Name => {
            let name = Text::from_slice(alloc, first.bytes)?;
            let at = first.at;
            Ok((Word { name, at }, behind))
        }
        _ => Err(Stop::Wrong(rest)),
    }
}

fn operation_head(operator: Operator) -> Head
    ensures { start_of result ≡ start (token.Operation operator) }
{
    match operator {
        Operator::Not => Head::Prefix(Op::Not),
        Operator::Minus => Head::Prefix(Op::Negate),
        _ => Head::NoStart,
    }
}

fn word_head(keyword: Keyword) -> Head
    ensures { start_of result ≡ start (token.Word keyword) }
{
    match keyword {
        Keyword::True => Head::Literal(Form::Truth(true)),
        Keyword::False => Head::Literal(Form::Truth(false)),
        _ => Head::NoStart,
    }
}

fn sign_head(symbol: Symbol) -> Head
    ensures { start_of result ≡ start (token.Sign symbol) }
{
    match symbol {
        Symbol::OpenParen => Head::Paren,
        Symbol::OpenBracket => Head::Bracket,
        _ => Head::NoStart,
    }
}

/// What an operand with this first token begins with.
pub(crate) fn head_of(alloc: Global, lexeme: Lexeme<'_>) -> Result<Head, NoMemory>
    ensures { IfOk result (λ found. start_of found ≡ start (placed lexeme.entry).0) }
{
    match lexeme.kind {
        Kind::Number(n) => Ok(Head::Literal(Form::Number(n))),
        Kind::Word(keyword) => Ok(word_head(keyword)),
        Kind::Sign(symbol) => Ok(sign_head(symbol)),
        Kind::Operation(operator) => Ok(operation_head(operator)),
        Kind::Hex => {
            let value = hex_value(alloc, digits_of(lexeme.bytes))?;
            Ok(Head::Literal(Form::Hex(value)))
        }
        Kind::Quoted => {
            let value = Text::from_slice(alloc, unquoted(lexeme.bytes))?;
            Ok(Head::Literal(Form::Quoted(value)))
        }
        Kind::Name => Ok(Head::Named(Text::from_slice(alloc, lexeme.bytes)?)),
        _ => Ok(Head::NoStart),
    }
}

/// An expression of one token, from its place on.
pub(crate) fn alone(at: u64, form: Form) -> Expr
    ensures { result ≡ single at form }
{
    Expr { from: at, at, form }
}

/// An operator at this place, and its operand.
pub(crate) fn prefixed(alloc: Global, at: u64, op: Op, arg: Expr) -> Result<Expr, AllocError>
    ensures { IfOk result (λ e. e ≡ before at op arg) }
{
    let arg = Boxed::new(alloc, arg)?;
    Ok(alone(at, Form::Unary { op, arg }))
}

// The operator of the tree that a token is between operands.
fn operation(lexeme: Lexeme<'_>) -> Op
    ensures { result ≡ op_of (joining (placed lexeme.entry).0) }
{
    match joining(lexeme) {
        Some((_, op)) => op,
        None => Op::Not,
    }
}

/// Two operands, and the operator between them.
pub(crate) fn joined(
    alloc: Global,
    first: Lexeme<'_>,
    left: Expr,
    right: Expr,
) -> Result<Expr, AllocError>
    ensures { IfOk result (λ e. e ≡ join (placed first.entry) left right) }
{
    let from = left.from;
    let op = operation(first);
    let left = Boxed::new(alloc, left)?;
    let right = Boxed::new(alloc, right)?;
    let form = Form::Binary { op, left, right };
    let at = first.at;
    Ok(Expr { from, at, form })
}

/// An expression that an opening parenthesis at this place stands before.
pub(crate) fn enclosed(from: u64, inner: Expr) -> Expr
    ensures { result ≡ enclosed from inner }
{
    let Expr { at, form, .. } = inner;
    Expr { from, at, form }
}

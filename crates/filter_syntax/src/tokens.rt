//! The tokens of a filter's text.
ghost use Rattle.std.specs.Prelude.{◌≡◌, ◌∷◌, map, IfOk};
ghost use Rattle.filter_syntax.specs.Tokens.{AreTokens};
ghost use Rattle.filter_syntax.specs.Lexing.{run_of, run_token, param_token, quoted_token, first_token, seen, Finds};

use crate::words::{is_word, quotable_len, run_len, word_kind};
use std::alloc::Global;
use wire::{MAX_NUMBER, NoMemory, decimal_within};

/// The greatest number of a parameter.
const PARAM_MOST: u64 = 99;

/// What a token is.
#[derive(Clone, Copy)]
pub(crate) enum Kind {
    Open,
    Close,
    Equals,
    And,
    Or,
    Inputs,
    Outputs,
    Name,
    /// With its two `'`.
    Quoted,
    Number(u64),
    Param(u64),
    /// The text's end.
    End,
    /// Bytes with which no token begins.
    Bad,
}

/// A token of a text, which takes the bytes from one place up to another.
#[derive(Clone, Copy)]
pub(crate) struct Lexeme {
    pub(crate) kind: Kind,
    pub(crate) from: usize,
    pub(crate) to: usize,
}

/// The tokens of a text, the last of them its end or bytes with which no token begins: in one pass, and no byte is
/// copied.
pub(crate) fn tokenize(alloc: Global, text: &[u8]) -> Result<Vec<Lexeme>, NoMemory>
    ensures { IfOk result (λ lexemes. AreTokens 0 text.now (map (seen text.now) lexemes.items)) }
{
    let mut lexemes = Vec::new(alloc);
    let mut at = 0;
    while at < text.len() {
        if text[at] == b' ' {
            at += 1;
        } else if let Some((kind, len)) = first_token(&text[at..]) {
            let to = at + len;
            lexemes.push(Lexeme { kind, from: at, to })?;
            at = to;
        } else {
            lexemes.push(mark(Kind::Bad, at))?;
            return Ok(lexemes);
        }
    }
    lexemes.push(mark(Kind::End, at))?;
    Ok(lexemes)
}

/// A place that takes no bytes.
pub(crate) fn mark(kind: Kind, at: usize) -> Lexeme
    ensures { result ≡ record { kind = kind; from = at; to = at } }
{
    Lexeme {
        kind,
        from: at,
        to: at,
    }
}

// The longest token that the text begins with, and how many bytes it takes.
#[tactic(auto, unfolding(crate::specs::Lexing::first_token))]
fn first_token(text: &[u8]) -> Option<(Kind, usize)>
    ensures { Finds text.now result (first_token text.now) }
{
    match text {
        [] => None,
        [b'(', ..] => Some((Kind::Open, 1)),
        [b')', ..] => Some((Kind::Close, 1)),
        [b'=', ..] => Some((Kind::Equals, 1)),
        [b'\'', behind @ ..] => quoted(behind),
        [b'$', behind @ ..] => param(behind),
        _ => word_or_number(text),
    }
}

// The token of a `'` and what stands after it.
fn quoted(behind: &[u8]) -> Option<(Kind, usize)>
    ensures { Finds (39 ∷ behind.now) result (quoted_token behind.now) }
{
    let len = quotable_len(behind);
    if len < behind.len() && behind[len] == b'\'' {
        Some((Kind::Quoted, len + 2))
    } else {
        None
    }
}

// The token of a `$` and what stands after it.
fn param(behind: &[u8]) -> Option<(Kind, usize)>
    ensures { Finds (36 ∷ behind.now) result (param_token (run_of behind.now)) }
{
    let len = run_len(behind);
    match decimal_within(&behind[..len], MAX_NUMBER) {
        Some(n) if n >= 1 && n <= PARAM_MOST => Some((Kind::Param(n), len + 1)),
        _ => None,
    }
}

// The token of a word or a number.
fn word_or_number(text: &[u8]) -> Option<(Kind, usize)>
    ensures { Finds text.now result (run_token (run_of text.now)) }
{
    let len = run_len(text);
    let run = &text[..len];
    if is_word(run) {
        return Some((word_kind(run), len));
    }
    match decimal_within(run, MAX_NUMBER) {
        Some(n) => Some((Kind::Number(n), len)),
        None => None,
    }
}

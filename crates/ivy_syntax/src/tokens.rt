//! Cuts a text into tokens.

ghost use Rattle.std.specs.Prelude.{◌≡◌, ◌≢◌, ◌<◌, ◌≤◌, ◌+◌, ◌-◌, ◌^◌, ◌==◌, length, [], drop, slice_index};
ghost use Rattle.std.specs.Prelude.{Some, None, IfSome, IfOk, IsTrue, true, false};
ghost use Rattle.std.specs.List.{prefix_len};
ghost use Rattle.std.specs.Char.{is_ascii_hexdigit};
ghost use Rattle.ivy_syntax.specs.Token.{letters, begins_name, goes_on, is_quotable};
ghost use Rattle.ivy_syntax.specs.Tokens.{is_blank, is_in_line, AreTokens};
ghost use Rattle.ivy_syntax.specs.Lexeme.{placed, tokens, token_of};
ghost use Rattle.ivy_syntax.specs.Cutting as cutting;

use crate::lexeme::{Front, Keyword, Kind, Lexeme, Operator, Symbol};
use std::alloc::Global;
use wire::{MAX_NUMBER, NoMemory, decimal_within};

// The byte at a place, and 0 after the end.
fn byte(text: &[u8], at: usize) -> u8
    ensures value { result ≡ slice_index text.now at }
    ensures within { result ≢ 0 → at < length text.now }
{
    if at < text.len() { text[at] } else { 0 }
}

fn begins_name(b: u8) -> bool
    ensures { result ≡ begins_name b }
{
    b.is_ascii_alphabetic() || b == b'_'
}

fn goes_on(b: u8) -> bool
    ensures { result ≡ goes_on b }
{
    b.is_ascii_alphanumeric() || b == b'_'
}

fn word_len(text: &[u8]) -> usize
    ensures value { result ≡ prefix_len goes_on text.now }
    ensures within { result ≤ length text.now }
{
    let mut len = 0;
    while len < text.len() && goes_on(text[len]) {
        len += 1;
    }
    len
}

fn keyword_among(mut keywords: &[Keyword], word: &[u8]) -> Option<Keyword>
    ensures { result ≡ cutting.keyword_among keywords.entry.now word.now }
{
    while let [keyword, rest @ ..] = keywords {
        if keyword.letters() == word {
            return Some(*keyword);
        }
        keywords = rest;
    }
    None
}

#[tactic(auto, unfolding(crate::specs::Cutting::keyword_of))]
fn keyword(word: &[u8]) -> Option<Keyword>
    ensures { result ≡ cutting.keyword_of word.now }
{
    keyword_among(&Keyword::ALL, word)
}

#[tactic(auto, unfolding(crate::specs::Cutting::word_at))]
fn word_at(text: &[u8]) -> Option<(Kind, usize)>
    ensures { result ≡ cutting.word_at text.now }
{
    let len = word_len(text);
    let kind = match keyword(&text[..len]) {
        Some(word) => Kind::Word(word),
        None => Kind::Name,
    };
    Some((kind, len))
}

#[tactic(auto, unfolding(crate::specs::Cutting::number_at))]
fn number_at(text: &[u8]) -> Option<(Kind, usize)>
    ensures { result ≡ cutting.number_at text.now }
{
    let len = word_len(text);
    match decimal_within(&text[..len], MAX_NUMBER) {
        Some(number) => Some((Kind::Number(number), len)),
        None => None,
    }
}

fn hex_len(digits: &[u8]) -> usize
    ensures value { result ≡ prefix_len is_ascii_hexdigit digits.now }
    ensures within { result ≤ length digits.now }
{
    let mut len = 0;
    while len < digits.len() && digits[len].is_ascii_hexdigit() {
        len += 1;
    }
    len
}

#[tactic(auto, unfolding(crate::specs::Cutting::hex_at))]
fn hex_at(text: &[u8]) -> Option<(Kind, usize)>
    requires room { 2 ≤ length text.now }
    requires small { length text.now < 2 ^ 63 }
    ensures { result ≡ cutting.hex_at text.now }
{
    Some((Kind::Hex, 2 + 2 * (hex_len(&text[2..]) / 2)))
}

fn is_quotable(b: u8) -> bool
    ensures { result ≡ is_quotable b }
{
    32 <= b && b <= 126 && b != b'\'' && b != b'\\'
}

fn quoted_len(text: &[u8]) -> usize
    ensures value { result ≡ prefix_len is_quotable text.now }
    ensures within { result ≤ length text.now }
{
    let mut len = 0;
    while len < text.len() && is_quotable(text[len]) {
        len += 1;
    }
    len
}

#[tactic(auto, unfolding(crate::specs::Cutting::quoted_at))]
fn quoted_at(text: &[u8]) -> Option<(Kind, usize)>
    requires room { 1 ≤ length text.now }
    requires small { length text.now < 2 ^ 63 }
    ensures { result ≡ cutting.quoted_at text.now }
{
    let len = quoted_len(&text[1..]);
    if byte(text, 1 + len) == b'\'' {
        Some((Kind::Quoted, 2 + len))
    } else {
        None
    }
}

#[tactic(auto, unfolding(crate::specs::Cutting::pair_of))]
fn pair_of(b: u8, next: u8) -> Option<Operator>
    ensures { result ≡ cutting.pair_of b next }
{
    match (b, next) {
        (b'|', b'|') => Some(Operator::Or),
        (b'&', b'&') => Some(Operator::And),
        (b'=', b'=') => Some(Operator::Equal),
        (b'!', b'=') => Some(Operator::NotEqual),
        (b'<', b'=') => Some(Operator::LessEqual),
        (b'>', b'=') => Some(Operator::GreaterEqual),
        (b'<', b'<') => Some(Operator::ShiftLeft),
        (b'>', b'>') => Some(Operator::ShiftRight),
        _ => None,
    }
}

#[tactic(auto, unfolding(crate::specs::Cutting::symbol_of))]
fn symbol_of(b: u8) -> Option<Symbol>
    ensures { result ≡ cutting.symbol_of b }
{
    match b {
        b'(' => Some(Symbol::OpenParen),
        b')' => Some(Symbol::CloseParen),
        b'{' => Some(Symbol::OpenBrace),
        b'}' => Some(Symbol::CloseBrace),
        b'[' => Some(Symbol::OpenBracket),
        b']' => Some(Symbol::CloseBracket),
        b',' => Some(Symbol::Comma),
        b':' => Some(Symbol::Colon),
        _ => None,
    }
}

#[tactic(auto, unfolding(crate::specs::Cutting::operator_of))]
fn operator_of(b: u8) -> Option<Operator>
    ensures { result ≡ cutting.operator_of b }
{
    match b {
        b'<' => Some(Operator::Less),
        b'>' => Some(Operator::Greater),
        b'+' => Some(Operator::Plus),
        b'-' => Some(Operator::Minus),
        b'*' => Some(Operator::Star),
        b'/' => Some(Operator::Slash),
        b'%' => Some(Operator::Percent),
        b'!' => Some(Operator::Not),
        _ => None,
    }
}

fn single(b: u8) -> Option<(Kind, usize)>
    ensures { result ≡ cutting.single_cut (cutting.symbol_of b) (cutting.operator_of b) }
{
    if let Some(symbol) = symbol_of(b) {
        return Some((Kind::Sign(symbol), 1));
    }
    match operator_of(b) {
        Some(operator) => Some((Kind::Operation(operator), 1)),
        None => None,
    }
}

#[tactic(auto, unfolding(crate::specs::Cutting::sign_at))]
fn sign_at(text: &[u8]) -> Option<(Kind, usize)>
    ensures { result ≡ cutting.sign_at text.now }
{
    match pair_of(byte(text, 0), byte(text, 1)) {
        Some(operator) => Some((Kind::Operation(operator), 2)),
        None => single(byte(text, 0)),
    }
}

#[tactic(auto, unfolding(crate::specs::Cutting::token_at))]
fn token_at(text: &[u8]) -> Option<(Kind, usize)>
    requires { length text.now < 2 ^ 63 }
    ensures { result ≡ cutting.token_at text.now }
{
    match byte(text, 0) {
        b if begins_name(b) => word_at(text),
        b'0' if byte(text, 1) == b'x' => hex_at(text),
        b'0'..=b'9' => number_at(text),
        b'\'' => quoted_at(text),
        _ => sign_at(text),
    }
}

fn is_blank(b: u8) -> bool
    ensures { result ≡ is_blank b }
{
    b == b' ' || b == b'\t' || b == b'\n' || b == b'\r'
}

fn line_len(text: &[u8]) -> usize
    ensures value { result ≡ prefix_len is_in_line text.now }
    ensures within { result ≤ length text.now }
{
    let mut len = 0;
    while len < text.len() && text[len] != b'\n' {
        len += 1;
    }
    len
}

// How many bytes stand before the first `*/`.
fn close(text: &[u8]) -> Option<usize>
    ensures value { result ≡ cutting.close_of text.now }
    ensures within { IfSome result (λ before. before < length text.now) }
{
    for (at, b) in text.iter().enumerate() {
        if *b == b'*' && byte(text, at + 1) == b'/' {
            return Some(at);
        }
    }
    None
}

fn block_len(text: &[u8]) -> usize
    requires { length text.now < 2 ^ 63 }
    ensures { result ≡ cutting.closed_len (cutting.close_of text.now) }
{
    match close(text) {
        Some(before) => 4 + before,
        None => 0,
    }
}

// How many bytes of a comment the text begins with. Where it is known that no `*/` follows, none is looked for.
#[tactic(auto, unfolding(crate::specs::Cutting::comment_len), using(crate::proofs::Cuts::none_in_block))]
fn comment_len(text: &[u8], unclosed: bool) -> usize
    requires small { length text.now < 2 ^ 63 }
    requires unclosed { IsTrue unclosed → cutting.close_of (drop 1 text.now) ≡ None }
    ensures { result ≡ cutting.comment_len text.now }
{
    if byte(text, 0) != b'/' {
        return 0;
    }
    match byte(text, 1) {
        b'/' => 2 + line_len(&text[2..]),
        b'*' if !unclosed => block_len(&text[2..]),
        _ => 0,
    }
}

// How many bytes of a blank or a comment the text begins with.
fn gap_len(text: &[u8], unclosed: bool) -> usize
    requires small { length text.now < 2 ^ 63 }
    requires unclosed { IsTrue unclosed → cutting.close_of (drop 1 text.now) ≡ None }
    ensures { result ≡ cutting.gap_len text.now }
{
    if is_blank(byte(text, 0)) {
        1
    } else {
        comment_len(text, unclosed)
    }
}

#[tactic(auto, unfolding(crate::specs::Cutting::front_at))]
fn front(text: &[u8], unclosed: bool) -> Front
    requires small { length text.now < 2 ^ 63 }
    requires unclosed { IsTrue unclosed → cutting.close_of (drop 1 text.now) ≡ None }
    ensures value { result ≡ cutting.front_at text.now }
    ensures within { cutting.TakesWithin result (length text.now) }
{
    match gap_len(text, unclosed) {
        0 => front_of_cut(token_at(text)),
        len => Front::Blank(len),
    }
}

fn front_of_cut(cut: Option<(Kind, usize)>) -> Front
    ensures { result ≡ cutting.front_of_cut cut }
{
    match cut {
        Some((kind, len)) => Front::Token(kind, len),
        None => Front::Wrong,
    }
}

fn begins_block(text: &[u8]) -> bool
    ensures { result ≡ cutting.begins_block text.now }
{
    byte(text, 0) == b'/' && byte(text, 1) == b'*'
}

/// `End` or `Bad` at a place.
pub(crate) fn point<'a>(kind: Kind, at: u64) -> Lexeme<'a>
    ensures token { placed result ≡ (token_of kind [], at) }
    ensures kind { result.kind ≡ kind }
{
    Lexeme {
        kind,
        bytes: &[],
        at,
    }
}

/// The tokens of a text, with `End` after them, or `Bad` where none begins: in one pass, with no byte copied.
pub(crate) fn tokenize<'a>(alloc: Global, text: &'a [u8]) -> Result<Vec<Lexeme<'a>>, NoMemory>
    ensures { IfOk result (λ lexemes. AreTokens 0 text.now (tokens lexemes.items)) }
{
    let mut lexemes = Vec::new(alloc);
    let mut at = 0;
    let mut unclosed = false;
    while at < text.len() {
        let rest = &text[at..];
        match front(rest, unclosed) {
            Front::Blank(len) => at += len,
            Front::Token(kind, len) => {
                unclosed = unclosed || begins_block(rest);
                lexemes.push(Lexeme {
                    kind,
                    bytes: &rest[..len],
                    at: at as u64,
                })?;
                at += len;
            }
            Front::Wrong => {
                lexemes.push(point(Kind::Bad, at as u64))?;
                return Ok(lexemes);
            }
        }
    }
    lexemes.push(point(Kind::End, at as u64))?;
    Ok(lexemes)
}

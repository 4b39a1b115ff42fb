//! Filters as texts.
ghost use Rattle.std.specs.Prelude.{◌≡◌, [], ◌∷◌, ◌++◌, drop, string_bytes, IfOk, OnOk};
ghost use Rattle.std.specs.List.{AllByRecursion};
ghost use Rattle.std.specs.Str.Lossy.{utf8_lossy};
ghost use Rattle.filter_syntax.specs.Token.{Token, And, Or, Equals, Name, CanBeWritten, spelling, spaced, written};
ghost use Rattle.filter_syntax.specs.Grammar.{Alternatives, Conjunction};
ghost use Rattle.filter_syntax.specs.Grammar as grammar;
ghost use Rattle.filter_syntax.specs.Shown.{shown, tokens_at, is_enclosed, enclosed_if, value_token, scope_token};

use crate::{Cond, Filter, FilterValue, Text};
use std::alloc::Global;
use wire::{Bytes, NoMemory, put_word};

/// The text of a filter: its tokens with one space between two. Of a filter that was read, it is in ASCII, and
/// parentheses stand round an operand exactly where the text without them does not read as the same filter. The empty
/// filter is the empty text. In a filter made by hand, bytes that are no UTF-8 are printed as U+FFFD.
#[tactic(auto, using(crate::proofs::Spaces::drop_first, crate::proofs::Spaces::written_text))]
pub fn print_filter(alloc: Global, filter: &Filter) -> Result<String, NoMemory>
    // The text of a filter whose tokens can be written.
    ensures written { IfOk result (λ text. AllByRecursion CanBeWritten (shown filter.now.root)
        → string_bytes text ≡ written (shown filter.now.root)) }

    // And of any filter.
    ensures lossy { IfOk result (λ text. string_bytes text ≡ utf8_lossy (written (shown filter.now.root))) }
{
    let mut text = Bytes::new(alloc);
    put_filter(alloc, &mut text, &filter.root)?;
    Ok(String::from_utf8_lossy(alloc, without_first(text.as_slice()))?)
}

// Adds a condition, or nothing.
fn put_filter(alloc: Global, text: &mut Bytes, root: &Option<Cond>) -> Result<(), NoMemory>
    ensures { OnOk result (text.new ≡ text.old ++ spaced (shown root.now)) }
{
    match root {
        Some(root) => put_condition(alloc, text, root),
        None => Ok(()),
    }
}

// All bytes but the first.
fn without_first(bytes: &[u8]) -> &[u8]
    ensures { result.now ≡ drop 1 bytes.now }
{
    match bytes {
        [_, after @ ..] => after,
        _ => bytes,
    }
}

// Adds a condition.
#[cycle(printing)]
fn put_condition(alloc: Global, text: &mut Bytes, condition: &Cond) -> Result<(), NoMemory>
    ensures { OnOk result (text.new ≡ text.old ++ spaced (tokens_at Alternatives condition.now)) }
{
    match condition {
        Cond::Or(a, b) => {
            put_condition(alloc, text, a.get())?;
            put_word(text, b"OR")?;
            put_operand(alloc, text, b.get(), is_or(b.get()))
        }
        Cond::And(a, b) => {
            put_operand(alloc, text, a.get(), is_or(a.get()))?;
            put_word(text, b"AND")?;
            put_operand(alloc, text, b.get(), is_or_or_and(b.get()))
        }
        Cond::Scope { inputs, inner } => {
            put_scope_word(text, *inputs)?;
            put_operand(alloc, text, inner.get(), true)
        }
        Cond::Is { name, value } => put_comparison(alloc, text, name, value),
    }
}

// Adds a condition, in parentheses or bare.
#[cycle(printing)]
fn put_operand(
    alloc: Global,
    text: &mut Bytes,
    operand: &Cond,
    enclosed: bool,
) -> Result<(), NoMemory>
    ensures { OnOk result (text.new ≡ text.old ++ spaced (enclosed_if enclosed (tokens_at Alternatives operand.now))) }
{
    if !enclosed {
        return put_condition(alloc, text, operand);
    }
    put_word(text, b"(")?;
    put_condition(alloc, text, operand)?;
    put_word(text, b")")
}

// It stands in parentheses as an operand of AND, and as the right one of OR.
fn is_or(condition: &Cond) -> bool
    ensures { result ≡ is_enclosed Conjunction condition.now }
{
    matches!(condition, Cond::Or(_, _))
}

// It stands in parentheses as the right operand of AND.
fn is_or_or_and(condition: &Cond) -> bool
    ensures { result ≡ is_enclosed grammar.Unit condition.now }
{
    matches!(condition, Cond::Or(_, _) | Cond::And(_, _))
}

// Adds the word of a scope.
fn put_scope_word(text: &mut Bytes, inputs: bool) -> Result<(), NoMemory>
    ensures { OnOk result (text.new ≡ text.old ++ spaced (scope_token inputs ∷ [])) }
{
    put_word(text, if inputs { b"inputs" } else { b"outputs" })
}

// Adds an attribute and what it is compared with.
fn put_comparison(
    alloc: Global,
    text: &mut Bytes,
    name: &Text,
    value: &FilterValue,
) -> Result<(), NoMemory>
    ensures { OnOk result (text.new ≡ text.old ++ spaced (Name name.now ∷ Equals ∷ value_token value.now ∷ [])) }
{
    put_word(text, name.as_slice())?;
    put_word(text, b"=")?;
    put_value(alloc, text, value)
}

// Adds a value.
fn put_value(alloc: Global, text: &mut Bytes, value: &FilterValue) -> Result<(), NoMemory>
    ensures { OnOk result (text.new ≡ text.old ++ spaced (value_token value.now ∷ [])) }
{
    match value {
        FilterValue::Quoted(quoted) => {
            put_word(text, b"'")?;
            text.extend_from_slice(quoted.as_slice())?;
            text.push(b'\'')
        }
        FilterValue::Number(n) => put_word(text, n.to_string(alloc)?.as_bytes()),
        FilterValue::Param(n) => {
            put_word(text, b"$")?;
            text.extend_from_slice(n.to_string(alloc)?.as_bytes())
        }
    }
}

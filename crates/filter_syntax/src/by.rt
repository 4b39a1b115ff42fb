//! Lists of attribute names that sums are made by.
ghost use Rattle.std.specs.Prelude.{◌≡◌, ◌≢◌, ℕ, ◌<◌, ◌≤◌, ◌^◌, length, map, take, drop, IsTrue};
ghost use Rattle.std.specs.Prelude.{Result, Ok, Err, IfOk, IfErr, IfSome, IfNone};
ghost use Rattle.std.specs.List.{AllByRecursion, list_any};
ghost use Rattle.std.specs.Str.{bytes_eq};
ghost use Rattle.filter_syntax.specs.Intermediate.{BeginsNoWord, SplitFault};
ghost use Rattle.filter_syntax.specs.Spelling.{is_word};
ghost use Rattle.filter_syntax.specs.Tokens.{IsApart};
ghost use Rattle.filter_syntax.specs.Attributes.{by_attributes};
ghost use Rattle.filter_syntax.specs.By.{Names, Joins, IsBy, IsSyntaxFault, IsUnknownFault, AnswersBy};
ghost use Rattle.wire.specs.Strings.{is_among};
ghost use Rattle.filter_syntax.specs.By.{IsKnown, IsFirstUnknown, each_once, before_next};
ghost use Rattle.filter_syntax.specs.declared.fault.FilterFault.{FilterFault};
ghost use Rattle.filter_syntax.specs.declared.fault.FilterFault.TheVariants as faults;

use crate::words::{begins_name, run_len};
use crate::{FilterFault, Text, laws};
use std::alloc::Global;
use std::marker::Model;
use wire::{Listed, NoMemory};

/// The names of attributes that sums are made by, in order, each once. It is seen as the list of them.
#[derive(Debug, Drop)]
pub struct By {
    names: Listed<Text>,
}

impl Model for By {
    ghost use Rattle.std.specs.Prelude.{ℕ, List};

    ghost Value = { List (List ℕ) };

    ghost view = { λ by. by.names };
}

impl By {
    /// The names, in order.
    pub fn as_slice(&self) -> &[Text]
        ensures { result.now ≡ self.now }
    {
        self.names.as_slice()
    }
}

/// The names of a text of names joined by commas, with no blanks: attributes of output rows but `amount`. A name that
/// comes again is read once.
pub fn parse_by(alloc: Global, text: &str) -> Result<By, FilterFault>
    // What is read is known names joined by commas, and each of them once.
    ensures found { IfOk result (λ by. IsBy text.now by) }

    // When each fault comes.
    ensures syntax { (at : ℕ) → result ≡ Err (faults.Syntax at) → IsSyntaxFault text.now at }
    ensures unknown { (at : ℕ) → result ≡ Err (faults.UnknownAttribute at) → IsUnknownFault text.now at }

    // What the text is read as is reported, unless memory runs out.
    ensures told { (answer : Result Names FilterFault)
        → AnswersBy text.now answer
        → result ≢ Err faults.NoMemory
        → result ≡ answer }
{
    laws::lists_of_names();
    let names = split_names(alloc, text.as_bytes())?;
    if let Some(at) = first_unknown(names.as_slice()) {
        return Err(FilterFault::UnknownAttribute { at });
    }
    Ok(By {
        names: each_once(alloc, names.as_slice())?,
    })
}

// The names that commas join.
fn split_names(alloc: Global, text: &[u8]) -> Result<Vec<&[u8]>, FilterFault>
    ensures found { IfOk result (λ names. Joins text.now (map (λ name. name.now) names.items)) }
    ensures fault { IfErr result (λ fault. SplitFault text.now fault) }
{
    let mut names = Vec::new(alloc);
    let mut at = 0;
    loop {
        let len = word_len(&text[at..]);
        if len == 0 {
            return Err(FilterFault::Syntax { at: at as u64 });
        }
        let end = at + len;
        names.push(&text[at..end])?;
        if end == text.len() {
            return Ok(names);
        }
        if text[end] != b',' {
            return Err(FilterFault::Syntax { at: end as u64 });
        }
        at = end + 1;
    }
}

// How many bytes the word takes with which the text begins, and 0 where it begins with none.
fn word_len(text: &[u8]) -> usize
    ensures within { result ≤ length text.now }
    ensures none { result ≡ 0 → BeginsNoWord text.now }
    ensures word { 0 < result → IsTrue (is_word (take result text.now)) }
    ensures ends { 0 < result → IsApart (drop result text.now) }
{
    match text {
        [first, ..] if begins_name(*first) => run_len(text),
        _ => 0,
    }
}

// The place of the first name that is unknown, where they are joined by commas.
fn first_unknown(names: &[&[u8]]) -> Option<u64>
    requires { length (before_next (map (λ name. name.now) names.now)) < 2 ^ 64 }
    ensures some { IfSome result (λ at. IsFirstUnknown (map (λ name. name.now) names.now) at) }
    ensures none { IfNone result (AllByRecursion IsKnown (map (λ name. name.now) names.now)) }
{
    let mut at = 0;
    for name in names {
        if !is_known(name) {
            return Some(at);
        }
        at += name.len() as u64 + 1;
    }
    None
}

pub(crate) fn is_known(name: &[u8]) -> bool
    ensures { result ≡ is_among by_attributes name.now }
{
    is_one_of(&BY_ATTRIBUTES, name)
}

pub(crate) fn is_one_of(names: &[&[u8]], name: &[u8]) -> bool
    ensures { result ≡ list_any (λ other. bytes_eq other.now name.now) names.now }
{
    names.iter().any(|other| *other == name)
}

// Each name once, where it first stands.
fn each_once(alloc: Global, names: &[&[u8]]) -> Result<Listed<Text>, NoMemory>
    ensures { IfOk result (λ kept. kept ≡ each_once (map (λ name. name.now) names.now)) }
{
    let mut kept = Listed::new(alloc);
    for name in names {
        if !is_among(kept.as_slice(), name) {
            kept.push(Text::from_slice(alloc, name)?)?;
        }
    }
    Ok(kept)
}

fn is_among(names: &[Text], name: &[u8]) -> bool
    ensures { result ≡ is_among names.now name.now }
{
    names.iter().any(|other| other.as_slice() == name)
}

/// The attributes of output rows but `amount`.
const BY_ATTRIBUTES: [&[u8]; 9] = [
    b"asset_id",
    b"control_program",
    b"data",
    b"id",
    b"position",
    b"type",
    b"block_height",
    b"transaction_id",
    b"transaction_position",
];

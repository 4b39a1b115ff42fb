//! The attributes that the conditions of filters compare.
ghost use Rattle.std.specs.Prelude.{◌≡◌, ℕ, ◌+◌, ◌<◌, ◌^◌, List, length, map, slice_get};
ghost use Rattle.std.specs.Prelude.{None, IfOk, IfErr, IfSome, IfNone};
ghost use Rattle.std.specs.List.{AllByRecursion};
ghost use Rattle.filter_syntax.specs.Intermediate.{AllKnown};
ghost use Rattle.filter_syntax.specs.Attributes.{attributes};
ghost use Rattle.wire.specs.Strings.{is_among};
ghost use Rattle.filter_syntax.specs.Lexing.{seen};
ghost use Rattle.filter_syntax.specs.Compared.{comparisons, IsKnown, FirstUnknown, places_of_names};

use crate::by::{self, is_one_of};
use crate::tokens::{Kind, Lexeme};
use crate::{Cond, RowKind};

/// The index, from 0 in the text's order, of the first comparison whose attribute rows of the kind do not have there.
pub(crate) fn first_unknown(kind: RowKind, cond: &Cond) -> Option<u64>
    requires { length (comparisons None cond.now) < 2 ^ 64 }
    ensures some { IfSome result (λ index. FirstUnknown kind (comparisons None cond.now) index) }
    ensures none { IfNone result (AllByRecursion (IsKnown kind) (comparisons None cond.now)) }
{
    match count_known(kind, None, cond) {
        Ok(_) => None,
        Err(index) => Some(index),
    }
}

// How many comparisons there are where each attribute is known, and else the index of the first whose is not.
#[tactic(auto, using(crate::proofs::Comparisons::by_parts))]
fn count_known(kind: RowKind, scope: Option<bool>, cond: &Cond) -> Result<u64, u64>
    requires { length (comparisons scope cond.now) < 2 ^ 64 }
    ensures known { IfOk result (λ count. AllKnown kind (comparisons scope cond.now) count) }
    ensures unknown { IfErr result (λ index. FirstUnknown kind (comparisons scope cond.now) index) }
{
    match cond {
        Cond::Or(left, right) | Cond::And(left, right) => {
            let before = count_known(kind, scope, left.get())?;
            match count_known(kind, scope, right.get()) {
                Ok(count) => Ok(before + count),
                Err(index) => Err(before + index),
            }
        }
        Cond::Scope { inputs, inner } => count_known(kind, Some(*inputs), inner.get()),
        Cond::Is { name, .. } if is_known(kind, scope, name.as_slice()) => Ok(1),
        Cond::Is { .. } => Err(0),
    }
}

// Rows of the kind have an attribute of this name in the scope.
fn is_known(kind: RowKind, scope: Option<bool>, name: &[u8]) -> bool
    ensures { result ≡ is_among (attributes kind scope) name.now }
{
    match (kind, scope) {
        (RowKind::Transactions, None) => is_one_of(&TRANSACTION_ATTRIBUTES, name),
        (RowKind::Transactions, Some(true)) => is_one_of(&INPUT_ATTRIBUTES, name),
        (RowKind::Transactions, Some(false)) => is_one_of(&OUTPUT_ATTRIBUTES, name),
        (RowKind::Outputs, None) => is_one_of(&AMOUNT, name) || by::is_known(name),
        (RowKind::Assets, None) => is_one_of(&ASSET_ATTRIBUTES, name),
        _ => false,
    }
}

/// The place of the name with this index, from 0, among the names of a text's tokens.
pub(crate) fn nth_name(lexemes: &[Lexeme], index: u64) -> Option<u64>
    ensures { (text : List ℕ) → result ≡ slice_get (places_of_names (map (seen text) lexemes.now)) index }
{
    let mut left = index;
    for lexeme in lexemes {
        if let Kind::Name = lexeme.kind {
            if left == 0 {
                return Some(lexeme.from as u64);
            }
            left -= 1;
        }
    }
    None
}

/// The attribute of output rows that sums are not made by.
const AMOUNT: [&[u8]; 1] = [b"amount"];

/// The attributes of transactions.
const TRANSACTION_ATTRIBUTES: [&[u8]; 7] = [
    b"block_height",
    b"data",
    b"id",
    b"maxtime",
    b"mintime",
    b"position",
    b"timestamp",
];

/// The attributes of an input of a transaction.
const INPUT_ATTRIBUTES: [&[u8]; 7] = [
    b"amount",
    b"asset_id",
    b"data",
    b"position",
    b"program",
    b"spent_output_id",
    b"type",
];

/// The attributes of an output inside a transaction.
const OUTPUT_ATTRIBUTES: [&[u8]; 7] = [
    b"amount",
    b"asset_id",
    b"control_program",
    b"data",
    b"id",
    b"position",
    b"type",
];

/// The attributes of assets.
const ASSET_ATTRIBUTES: [&[u8]; 4] = [b"asset_id", b"issued", b"retired", b"unspent"];

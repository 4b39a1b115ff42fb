//! X5 to X8: what sets a transaction apart from all others.
ghost use Rattle.std.specs.Prelude.{◌≡◌, ◌↔◌, IsTrue, Contains};
ghost use Rattle.wire.specs.Tables.{First};
ghost use Rattle.keyed.specs.Functions.{Hash};
ghost use Rattle.tx_check.specs.FirstPlace.{Found};
ghost use Rattle.tx_check.specs.Table.{UsesNonce, TellsApart, HasEndlessNonce, IsNotToldApart, named_by, IsSpend};
ghost use Rattle.tx_check.specs.Table.{IsNonce, HasSpentTwice, HasUsedTwice, name_causes};

use crate::TxRefusal;
use data_model::{Input, Tx};
use entry_ids::Named;

// The first of X5 to X8 that holds, by what the inputs name.
pub(crate) fn name_refusal(tx: &Tx, named: &[Named]) -> Option<TxRefusal>
    ensures { (hash : Hash) → named.now ≡ named_by hash tx.now → First (name_causes hash tx.now) result }
{
    if let Some(cause) = endless_nonce(tx) {
        return Some(cause);
    }
    if let Some(cause) = not_set_apart(tx) {
        return Some(cause);
    }
    if let Some(cause) = spent_twice(named) {
        return Some(cause);
    }
    used_twice(named)
}

// X5.
fn endless_nonce(tx: &Tx) -> Option<TxRefusal>
    ensures { Found (HasEndlessNonce tx.now) result }
{
    let inputs = tx.inputs.as_slice();
    for (k, input) in inputs.iter().enumerate() {
        if is_endless(tx.maxtime, input) {
            return Some(TxRefusal::X5 { input: k as u64 });
        }
    }
    None
}

// An issuance with a nonce where there is no maxtime.
fn is_endless(maxtime: u64, input: &Input) -> bool
    ensures { IsTrue result ↔ (UsesNonce input.now × (maxtime ≡ 0)) }
{
    match input {
        Input::Issue(issue) => maxtime == 0 && !issue.nonce.is_empty(),
        Input::Spend(_) => false,
    }
}

// X6.
fn not_set_apart(tx: &Tx) -> Option<TxRefusal>
    ensures { Found (IsNotToldApart tx.now) result }
{
    let inputs = tx.inputs.as_slice();
    for input in inputs {
        if sets_apart(input) {
            return None;
        }
    }
    Some(TxRefusal::X6)
}

// A spend, or an issuance with a nonce.
fn sets_apart(input: &Input) -> bool
    ensures { IsTrue result ↔ TellsApart input.now }
{
    match input {
        Input::Issue(issue) => !issue.nonce.is_empty(),
        Input::Spend(_) => true,
    }
}

// X7.
fn spent_twice(named: &[Named]) -> Option<TxRefusal>
    ensures { Found (HasSpentTwice named.now) result }
{
    for (k, name) in named.iter().enumerate() {
        if spends_again(&named[..k], name) {
            return Some(TxRefusal::X7 { input: k as u64 });
        }
    }
    None
}

// The name of an output, which is among the earlier names.
fn spends_again(earlier: &[Named], name: &Named) -> bool
    ensures { IsTrue result ↔ (IsSpend name.now × Contains earlier.now name.now) }
{
    match name {
        Named::Output(_) => has_name(earlier, name),
        _ => false,
    }
}

// X8.
fn used_twice(named: &[Named]) -> Option<TxRefusal>
    ensures { Found (HasUsedTwice named.now) result }
{
    for (k, name) in named.iter().enumerate() {
        if uses_again(&named[..k], name) {
            return Some(TxRefusal::X8 { input: k as u64 });
        }
    }
    None
}

// The name of a nonce, which is among the earlier names.
fn uses_again(earlier: &[Named], name: &Named) -> bool
    ensures { IsTrue result ↔ (IsNonce name.now × Contains earlier.now name.now) }
{
    match name {
        Named::Nonce(_) => has_name(earlier, name),
        _ => false,
    }
}

// This name is among these.
fn has_name(named: &[Named], name: &Named) -> bool
    ensures { IsTrue result ↔ Contains named.now name.now }
{
    for other in named {
        if same_name(other, name) {
            return true;
        }
    }
    false
}

// Two names are the same.
fn same_name(a: &Named, b: &Named) -> bool
    ensures { IsTrue result ↔ (a.now ≡ b.now) }
{
    match (a, b) {
        (Named::Nothing, Named::Nothing) => true,
        (Named::Nonce(a), Named::Nonce(b)) => a == b,
        (Named::Output(a), Named::Output(b)) => a == b,
        _ => false,
    }
}

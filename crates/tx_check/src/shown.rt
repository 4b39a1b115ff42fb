//! X11 to X13: what the chain shows.
ghost use Rattle.std.specs.Prelude.{◌≡◌, ◌↔◌, ◌⊎◌, IsTrue, Contains, length};
ghost use Rattle.data_model.specs.declared.tx.Tx.{Tx};
ghost use Rattle.wire.specs.Tables.{First};
ghost use Rattle.keyed.specs.Functions.{Hash};
ghost use Rattle.entry_ids.specs.Ids.{AreIds, names, result_ids};
ghost use Rattle.tx_check.specs.View.{HasId};
ghost use Rattle.tx_check.specs.FirstPlace.{Found};
ghost use Rattle.tx_check.specs.Table.{named_by, SpendsNone, HasSpentNone, UsesLive, HasLiveNonce, IsControl};
ghost use Rattle.tx_check.specs.Table.{IsTaken, HasTakenId, state_causes};

use crate::{TxRefusal, View};
use data_model::{Input, Output, Tx};
use entry_ids::{Named, TxIds};
use wire::Id;

// The first of X11 to X13 that holds, by the ids of the transaction.
pub(crate) fn state_refusal<V: View>(view: &V, tx: &Tx, ids: &TxIds) -> Option<TxRefusal>
    requires named { length ids.now.named ≡ length tx.now.inputs }
    requires results { length ids.now.results ≡ length tx.now.outputs }
    ensures { (hash : Hash) → AreIds hash tx.now ids.now
        → First (state_causes hash (V.state_of view.now) tx.now) result }
{
    let named = ids.named.as_slice();
    if let Some(cause) = spent_none(view, tx, named) {
        return Some(cause);
    }
    if let Some(cause) = live_nonce(view, named) {
        return Some(cause);
    }
    taken_id(view, tx, ids.results.as_slice())
}

// X11.
fn spent_none<V: View>(view: &V, tx: &Tx, named: &[Named]) -> Option<TxRefusal>
    requires { length named.now ≡ length tx.now.inputs }
    ensures { (hash : Hash) → named.now ≡ named_by hash tx.now
        → Found (HasSpentNone hash (V.state_of view.now) tx.now) result }
{
    let inputs = tx.inputs.as_slice();
    for (k, input) in inputs.iter().enumerate() {
        if spends_none(view, input, &named[k]) {
            return Some(TxRefusal::X11 { input: k as u64 });
        }
    }
    None
}

// An input, which names this, spends what is not unspent.
fn spends_none<V: View>(view: &V, input: &Input, name: &Named) -> bool
    ensures { (hash : Hash) (tx : Tx) → name.now ≡ names hash tx input.now
        → (IsTrue result ↔ SpendsNone hash (V.state_of view.now) input.now) }
{
    match (input, name) {
        (Input::Spend(spend), Named::Output(id)) => !view.holds(id, &spend.from),
        _ => false,
    }
}

// X12.
fn live_nonce<V: View>(view: &V, named: &[Named]) -> Option<TxRefusal>
    ensures { Found (HasLiveNonce (V.state_of view.now) named.now) result }
{
    for (k, name) in named.iter().enumerate() {
        if uses_live(view, name) {
            return Some(TxRefusal::X12 { input: k as u64 });
        }
    }
    None
}

// The name of a nonce that is live.
fn uses_live<V: View>(view: &V, name: &Named) -> bool
    ensures { IsTrue result ↔ UsesLive (V.state_of view.now) name.now }
{
    match name {
        Named::Nonce(id) => view.live_nonce(id),
        _ => false,
    }
}

// X13, where these are the ids of the outputs and retirements.
fn taken_id<V: View>(view: &V, tx: &Tx, results: &[Id]) -> Option<TxRefusal>
    requires { length results.now ≡ length tx.now.outputs }
    ensures { (hash : Hash) → results.now ≡ result_ids hash tx.now
        → Found (HasTakenId hash (V.state_of view.now) tx.now) result }
{
    let outputs = tx.outputs.as_slice();
    for (k, output) in outputs.iter().enumerate() {
        let id = results[k];
        if takes_id(view, output, &results[..k], &id) {
            return Some(TxRefusal::X13 {
                output: k as u64,
                id,
            });
        }
    }
    None
}

// An output under a program whose id is that of an unspent output, or is among the earlier ones.
fn takes_id<V: View>(view: &V, output: &Output, earlier: &[Id], id: &Id) -> bool
    ensures { IsTrue result ↔ (IsControl output.now
        × (HasId (V.state_of view.now) id.now ⊎ Contains earlier.now id.now)) }
{
    match output {
        Output::Control(_) => view.has_id(id) || earlier.contains(id),
        Output::Retire(_) => false,
    }
}

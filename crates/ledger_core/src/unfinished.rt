//! What the transactions of an unfinished block change, one after the other.
ghost use Rattle.std.specs.Prelude.{◌≡◌, ◌≤◌, ◌<◌, ◌^◌, ◌++◌, [], length, OnOk, IfOk, Option};
ghost use Rattle.std.specs.List.{flat_map};
ghost use Rattle.std.specs.Vec.{vec_len, vec_capacity};
ghost use Rattle.data_model.specs.Transaction.{IsTx};
ghost use Rattle.keyed.specs.Functions.{Hash};
ghost use Rattle.entry_ids.specs.Ids.{AreIds};
ghost use Rattle.ledger_core.specs.Unspent.{made_by, made_body, spent_by, used_by, left_of};
ghost use Rattle.wire.specs.Strings.{is_among};
ghost use Rattle.ledger_core.specs.Unspent.{output_named, nonce_named};

use data_model::{Output, OutputBody, Tx};
use entry_ids::{Named, TxIds};
use std::alloc::Global;
use std::marker::Model;
use wire::{Id, NoMemory};

/// An output that nothing has spent.
#[derive(Debug, Drop)]
pub struct Unspent {
    pub id: Id,
    pub body: OutputBody,
}

impl Model for Unspent {
    ghost use Rattle.tx_check.specs.View.{Unspent};

    ghost Value = { Unspent };

    ghost view = { λ output. record { id = output.id; body = output.body } };
}

/// A nonce that may not be used again.
#[derive(Clone, Copy, Debug, PartialEq, Eq)]
pub struct LiveNonce {
    pub id: Id,
    /// The last time of a block that may hold the transaction that uses it.
    pub maxtime: u64,
}

// What the transactions of an unfinished block have changed so far: the outputs that they have made and left unspent,
// the ids of the outputs that they have spent, and the nonces that they have used.
#[derive(Drop)]
pub(crate) struct Changes {
    pub(crate) made: Vec<Unspent>,
    pub(crate) spent: Vec<Id>,
    pub(crate) used: Vec<LiveNonce>,
}

impl Changes {
    // Nothing.
    pub(crate) fn new(alloc: Global) -> Changes
        ensures made { result.made.items ≡ [] }
        ensures spent { result.spent.items ≡ [] }
        ensures used { result.used.items ≡ [] }
    {
        Changes {
            made: Vec::new(alloc),
            spent: Vec::new(alloc),
            used: Vec::new(alloc),
        }
    }

    // What one transaction more changes, by its ids.
    pub(crate) fn add(&mut self, alloc: Global, tx: &Tx, ids: &TxIds) -> Result<(), NoMemory>
        requires tx { IsTx tx.now }
        requires ids { (hash : Hash) × AreIds hash tx.now ids.now }
        ensures made { (hash : Hash) → AreIds hash tx.now ids.now
            → OnOk result
            (self.new.made.items ≡ left_of (spent_by hash tx.now) self.old.made.items ++ made_by hash tx.now) }
        ensures spent { (hash : Hash) → AreIds hash tx.now ids.now
            → OnOk result (self.new.spent.items ≡ self.old.spent.items ++ spent_by hash tx.now) }
        ensures used { (hash : Hash) → AreIds hash tx.now ids.now
            → OnOk result (self.new.used.items ≡ self.old.used.items ++ used_by hash tx.now) }
    {
        let named = ids.named.as_slice();
        let before = self.spent.len();
        add_spent(&mut self.spent, named)?;
        add_used(&mut self.used, tx.maxtime, named)?;
        keep_unspent(&mut self.made, &self.spent[before..]);
        add_made(alloc, &mut self.made, tx, ids)
    }
}

// Adds the ids of the outputs that are named.
fn add_spent(spent: &mut Vec<Id>, named: &[Named]) -> Result<(), NoMemory>
    ensures { OnOk result (spent.new.items ≡ spent.old.items ++ flat_map output_named named.now) }
{
    spent.reserve(named.len())?;
    for name in named {
        if let Named::Output(id) = name {
            spent.push(*id)?;
        }
    }
    Ok(())
}

// Adds the nonces that are named.
fn add_used(used: &mut Vec<LiveNonce>, maxtime: u64, named: &[Named]) -> Result<(), NoMemory>
    ensures { OnOk result (used.new.items ≡ used.old.items ++ flat_map (nonce_named maxtime) named.now) }
{
    for name in named {
        if let Named::Nonce(id) = name {
            used.push(LiveNonce { id: *id, maxtime })?;
        }
    }
    Ok(())
}

// Takes out the outputs whose ids are among these.
pub(crate) fn keep_unspent(outputs: &mut Vec<Unspent>, spent: &[Id])
    ensures items { outputs.new.items ≡ left_of spent.now outputs.old.items }
    ensures bound { vec_len outputs.new ≤ vec_len outputs.old }
    ensures capacity { vec_capacity outputs.new ≡ vec_capacity outputs.old }
{
    outputs.retain(|output| !is_among(spent, &output.id));
}

// Adds the outputs under a program that a transaction makes, by its ids.
fn add_made(alloc: Global, made: &mut Vec<Unspent>, tx: &Tx, ids: &TxIds) -> Result<(), NoMemory>
    requires results { length ids.now.results ≡ length tx.now.outputs }
    requires hashes { length ids.now.result_data ≡ length tx.now.outputs }
    ensures { (hash : Hash) → AreIds hash tx.now ids.now
        → OnOk result (made.new.items ≡ made.old.items ++ made_by hash tx.now) }
{
    let outputs = tx.outputs.as_slice();
    let results = ids.results.as_slice();
    let data_hashes = ids.result_data.as_slice();
    made.reserve(outputs.len())?;
    for (k, output) in outputs.iter().enumerate() {
        if let Some(body) = body_of(alloc, &ids.mux, k as u64, output, &data_hashes[k])? {
            made.push(Unspent {
                id: results[k],
                body,
            })?;
        }
    }
    Ok(())
}

// The body of an output under a program, which came from this mux and stands at this place. A retirement has none.
fn body_of(
    alloc: Global,
    mux: &Id,
    place: u64,
    output: &Output,
    data_hash: &Id,
) -> Result<Option<OutputBody>, NoMemory>
    ensures { IfOk result (λ body. body ≡ made_body mux.now place data_hash.now output.now) }
{
    match output {
        Output::Control(control) => Ok(Some(OutputBody {
            source: *mux,
            position: place,
            asset: control.asset,
            amount: control.amount,
            program: control.program.copy(alloc)?,
            data_hash: *data_hash,
        })),
        Output::Retire(_) => Ok(None),
    }
}

// One of these is the id.
pub(crate) fn is_among(ids: &[Id], id: &Id) -> bool
    ensures { result ≡ is_among ids.now id.now }
{
    ids.iter().any(|other| other == id)
}

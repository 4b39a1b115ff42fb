//! Ids of inputs. Each body is written into a writer that is handed in, whose room serves one id after the other.
ghost use Rattle.std.specs.Prelude.{◌≡◌, ◌<◌, ◌^◌, ◌++◌, IfOk, OnOk, codes};
ghost use Rattle.wire.specs.Spelling.{varstring};
ghost use Rattle.data_model.specs.Transaction.{IsBody, IsInput, IsTx};
ghost use Rattle.entry_ids.specs.Entry.{entry};
ghost use Rattle.entry_ids.specs.Ids.{nonce_id, id_of_nonce, nonce_named, input_id, issue_body, spend_body};
ghost use Rattle.entry_ids.specs.Ids.{names, output_id, input_data};

use crate::entry::entry_id;
use crate::output::id_of_output;
use data_model::{Input, Issue, Spend, Tx};
use keyed::IdHash;
use std::alloc::Global;
use wire::{Id, Listed, NoMemory, Writer};

/// What an input names.
#[derive(Clone, Copy, Debug, PartialEq, Eq)]
pub enum Named {
    /// Nothing: an issuance whose nonce is empty.
    Nothing,
    /// The nonce that an issuance uses, by its id.
    Nonce(Id),
    /// The output that a spend spends, by its id.
    Output(Id),
}

/// What the inputs of a transaction name, in order.
pub type Names = Listed<Named>;

// What is formed for an input: the id of its entry, what it names, and the hash of its data.
#[derive(Clone, Copy)]
pub(crate) struct InputIds {
    pub(crate) entry: Id,
    pub(crate) named: Named,
    pub(crate) data_hash: Id,
}

/// The id of the nonce of an issuance, in a transaction with these times.
pub fn nonce_id<H: IdHash>(
    alloc: Global,
    hash: &H,
    issue: &Issue,
    mintime: u64,
    maxtime: u64,
) -> Result<Id, NoMemory>
    requires mintime { mintime < 2 ^ 63 }
    requires maxtime { maxtime < 2 ^ 63 }
    ensures { IfOk result (λ id. id ≡ nonce_id (H.hash_of hash.now) issue.now mintime maxtime) }
{
    let mut text = Writer::new(alloc)?;
    id_of(hash, issue, mintime, maxtime, &mut text)
}

// The id of the nonce of an issuance.
#[tactic(auto, unfolding(crate::specs::Ids::nonce_id))]
fn id_of<H: IdHash>(
    hash: &H,
    issue: &Issue,
    mintime: u64,
    maxtime: u64,
    text: &mut Writer,
) -> Result<Id, NoMemory>
    requires mintime { mintime < 2 ^ 63 }
    requires maxtime { maxtime < 2 ^ 63 }
    ensures { IfOk result (λ id. id ≡ nonce_id (H.hash_of hash.now) issue.now mintime maxtime) }
{
    text.clear();
    text.text(issue.nonce.as_slice())?;
    text.raw(&issue.asset)?;
    text.number(mintime)?;
    text.number(maxtime)?;
    Ok(entry_id(hash, b"nonce", text.as_slice()))
}

// The id of an input's entry, what it names, and the hash of its data.
#[tactic(auto, unfolding(crate::specs::Ids::input_id, crate::specs::Ids::names, crate::specs::Ids::input_data))]
pub(crate) fn ids_of_input<H: IdHash>(
    hash: &H,
    tx: &Tx,
    input: &Input,
    text: &mut Writer,
) -> Result<InputIds, NoMemory>
    requires tx { IsTx tx.now }
    requires input { IsInput input.now }
    ensures entry { IfOk result (λ ids. ids.entry ≡ input_id (H.hash_of hash.now) tx.now input.now) }
    ensures named { IfOk result (λ ids. ids.named ≡ names (H.hash_of hash.now) tx.now input.now) }
    ensures data_hash { IfOk result (λ ids. ids.data_hash ≡ input_data (H.hash_of hash.now) input.now) }
{
    match input {
        Input::Issue(issue) => ids_of_issue(hash, tx, issue, text),
        Input::Spend(spend) => ids_of_spend(hash, spend, text),
    }
}

// The same of an issuance.
fn ids_of_issue<H: IdHash>(
    hash: &H,
    tx: &Tx,
    issue: &Issue,
    text: &mut Writer,
) -> Result<InputIds, NoMemory>
    requires mintime { tx.now.mintime < 2 ^ 63 }
    requires maxtime { tx.now.maxtime < 2 ^ 63 }
    requires amount { issue.now.amount < 2 ^ 63 }
    ensures entry { let hash_of = H.hash_of hash.now in
        IfOk result (λ ids. ids.entry ≡ entry hash_of (codes "issuance1") (issue_body hash_of tx.now issue.now)) }
    ensures named { let id = nonce_id (H.hash_of hash.now) issue.now tx.now.mintime tx.now.maxtime in
        IfOk result (λ ids. ids.named ≡ nonce_named issue.now.nonce id) }
    ensures data_hash { IfOk result (λ ids. ids.data_hash ≡ H.hash_of hash.now issue.now.refdata) }
{
    let named = begin_with_nonce(hash, tx, issue, text)?;
    let data_hash = hash.hash(issue.refdata.as_slice());
    text.raw(&issue.asset)?;
    text.number(issue.amount)?;
    text.raw(&data_hash)?;
    Ok(InputIds {
        entry: entry_id(hash, b"issuance1", text.as_slice()),
        named,
        data_hash,
    })
}

// Writes the id of an issuance's nonce as a string, an empty one where the nonce is empty, and gives what it names.
fn begin_with_nonce<H: IdHash>(
    hash: &H,
    tx: &Tx,
    issue: &Issue,
    text: &mut Writer,
) -> Result<Named, NoMemory>
    requires mintime { tx.now.mintime < 2 ^ 63 }
    requires maxtime { tx.now.maxtime < 2 ^ 63 }
    ensures written { let id = nonce_id (H.hash_of hash.now) issue.now tx.now.mintime tx.now.maxtime in
        OnOk result (text.new ≡ varstring (id_of_nonce issue.now.nonce id)) }
    ensures named { let id = nonce_id (H.hash_of hash.now) issue.now tx.now.mintime tx.now.maxtime in
        IfOk result (λ named. named ≡ nonce_named issue.now.nonce id) }
{
    if issue.nonce.is_empty() {
        text.clear();
        text.text(b"")?;
        return Ok(Named::Nothing);
    }
    let id = id_of(hash, issue, tx.mintime, tx.maxtime, text)?;
    text.clear();
    text.text(&id)?;
    Ok(Named::Nonce(id))
}

// The same of a spend.
fn ids_of_spend<H: IdHash>(hash: &H, spend: &Spend, text: &mut Writer) -> Result<InputIds, NoMemory>
    requires { IsBody spend.now.from }
    ensures entry { let hash_of = H.hash_of hash.now in
        IfOk result (λ ids. ids.entry ≡ entry hash_of (codes "spend1") (spend_body hash_of spend.now)) }
    ensures named { IfOk result (λ ids. ids.named ≡ Named.Output (output_id (H.hash_of hash.now) spend.now.from)) }
    ensures data_hash { IfOk result (λ ids. ids.data_hash ≡ H.hash_of hash.now spend.now.refdata) }
{
    let spent = id_of_output(hash, &spend.from, text)?;
    let data_hash = hash.hash(spend.refdata.as_slice());
    text.clear();
    text.raw(&spent)?;
    text.raw(&data_hash)?;
    Ok(InputIds {
        entry: entry_id(hash, b"spend1", text.as_slice()),
        named: Named::Output(spent),
        data_hash,
    })
}

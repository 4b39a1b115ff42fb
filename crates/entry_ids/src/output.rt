//! Ids of outputs. Each body is written into a writer that is handed in, whose room serves one id after the other.
ghost use Rattle.std.specs.Prelude.{◌≡◌, ◌<◌, ◌^◌, IfOk, codes};
ghost use Rattle.data_model.specs.Transaction.{IsBody, IsOutput};
ghost use Rattle.entry_ids.specs.Entry.{entry};
ghost use Rattle.entry_ids.specs.Ids.{output_id, result_id, result_data, control_body, retire_body};

use crate::entry::entry_id;
use data_model::{Control, Output, OutputBody, Retire};
use keyed::IdHash;
use std::alloc::Global;
use wire::{Id, NoMemory, Record, Writer};

// What is formed for an output or a retirement: the id of its entry, and the hash of its data.
#[derive(Clone, Copy)]
pub(crate) struct ResultIds {
    pub(crate) entry: Id,
    pub(crate) data_hash: Id,
}

/// The id of an output under a program.
pub fn output_id<H: IdHash>(alloc: Global, hash: &H, body: &OutputBody) -> Result<Id, NoMemory>
    requires { IsBody body.now }
    ensures { IfOk result (λ id. id ≡ output_id (H.hash_of hash.now) body.now) }
{
    let mut text = Writer::new(alloc)?;
    id_of_output(hash, body, &mut text)
}

// The id of an output under a program.
#[tactic(auto, unfolding(crate::specs::Ids::output_id))]
pub(crate) fn id_of_output<H: IdHash>(
    hash: &H,
    body: &OutputBody,
    text: &mut Writer,
) -> Result<Id, NoMemory>
    requires { IsBody body.now }
    ensures { IfOk result (λ id. id ≡ output_id (H.hash_of hash.now) body.now) }
{
    text.clear();
    body.write(text)?;
    Ok(entry_id(hash, b"output1", text.as_slice()))
}

// The id of an output or a retirement, which came from this mux and stands at this place, and the hash of its data.
#[tactic(auto, unfolding(crate::specs::Ids::result_id, crate::specs::Ids::result_data))]
pub(crate) fn ids_of_result<H: IdHash>(
    hash: &H,
    mux: &Id,
    position: u64,
    output: &Output,
    text: &mut Writer,
) -> Result<ResultIds, NoMemory>
    requires position { position < 2 ^ 63 }
    requires output { IsOutput output.now }
    ensures entry { IfOk result
        (λ ids. ids.entry ≡ result_id (H.hash_of hash.now) mux.now position output.now) }
    ensures data_hash { IfOk result (λ ids. ids.data_hash ≡ result_data (H.hash_of hash.now) output.now) }
{
    match output {
        Output::Control(control) => ids_of_control(hash, mux, position, control, text),
        Output::Retire(retire) => ids_of_retire(hash, mux, position, retire, text),
    }
}

// The same of an output under a program: its body is that of an unspent output.
#[tactic(auto, unfolding(crate::specs::Ids::output_id, data_model::specs::Transaction::body_spelling))]
fn ids_of_control<H: IdHash>(
    hash: &H,
    mux: &Id,
    position: u64,
    control: &Control,
    text: &mut Writer,
) -> Result<ResultIds, NoMemory>
    requires position { position < 2 ^ 63 }
    requires amount { control.now.amount < 2 ^ 63 }
    ensures entry { let hash_of = H.hash_of hash.now in
        IfOk result (λ ids. ids.entry ≡ output_id hash_of (control_body hash_of mux.now position control.now)) }
    ensures data_hash { IfOk result (λ ids. ids.data_hash ≡ H.hash_of hash.now control.now.refdata) }
{
    let data_hash = hash.hash(control.refdata.as_slice());
    text.clear();
    text.raw(mux)?;
    text.number(position)?;
    text.raw(&control.asset)?;
    text.number(control.amount)?;
    text.text(control.program.as_slice())?;
    text.raw(&data_hash)?;
    Ok(ResultIds {
        entry: entry_id(hash, b"output1", text.as_slice()),
        data_hash,
    })
}

// The same of a retirement.
fn ids_of_retire<H: IdHash>(
    hash: &H,
    mux: &Id,
    position: u64,
    retire: &Retire,
    text: &mut Writer,
) -> Result<ResultIds, NoMemory>
    requires position { position < 2 ^ 63 }
    requires amount { retire.now.amount < 2 ^ 63 }
    ensures entry { let hash_of = H.hash_of hash.now in
        IfOk result
        (λ ids. ids.entry
        ≡ entry hash_of (codes "retirement1") (retire_body hash_of mux.now position retire.now)) }
    ensures data_hash { IfOk result (λ ids. ids.data_hash ≡ H.hash_of hash.now retire.now.refdata) }
{
    let data_hash = hash.hash(retire.refdata.as_slice());
    text.clear();
    text.raw(mux)?;
    text.number(position)?;
    text.raw(&retire.asset)?;
    text.number(retire.amount)?;
    text.raw(&data_hash)?;
    Ok(ResultIds {
        entry: entry_id(hash, b"retirement1", text.as_slice()),
        data_hash,
    })
}

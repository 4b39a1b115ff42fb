//! The programs of a transaction's inputs.
ghost use Rattle.std.specs.Prelude.{◌≡◌, ◌<◌, length, IfOk, OnOk};
ghost use Rattle.data_model.specs.Transaction.{IsTx};
ghost use Rattle.entry_ids.specs.Ids.{AreIds};
ghost use Rattle.vm_run.specs.declared.transaction.TxContext.{TxContext};
ghost use Rattle.tx_check.specs.Contexts.{FailsAs, VerdictAt, seen_outputs};
ghost use Rattle.tx_check.specs.FirstPlace.{AtFirst, Found};

use crate::context::{context_with, seen_outputs};
use crate::parts::{args_in, program_in};
use data_model::Tx;
use entry_ids::TxIds;
use keyed::{IdHash, SigCheck};
use std::alloc::Global;
use std::mem::replace;
use vm_num::Failure;
use vm_run::laws::one_verdict;
use vm_run::{Context, NoMemory, Outs, Verdict, verify};

/// The run limit of the program of an input, its arguments included.
const RUN_LIMIT: u64 = 10_000;

// The first input whose program does not succeed: its place, and how and where its program fails. The outputs are made
// for the programs once.
pub(crate) fn first_failing<H: IdHash, C: SigCheck>(
    alloc: Global,
    hash: &H,
    sigs: &C,
    tx: &Tx,
    ids: &TxIds,
) -> Result<Option<(u64, Failure, u64)>, NoMemory>
    requires tx { IsTx tx.now }
    requires ids { AreIds (H.hash_of hash.now) tx.now ids.now }
    ensures { let fails = FailsAs (H.hash_of hash.now) (C.good_of sigs.now) tx.now in
        IfOk result (Found (AtFirst fails tx.now.inputs)) }
{
    one_verdict();
    let mut outs = seen_outputs(alloc, tx, ids)?;
    for k in 0..tx.inputs.len() as u64 {
        let verdict = verdict_on(alloc, hash, sigs, tx, ids, k, &mut outs)?;
        if let Verdict::Failed { kind, at } = verdict {
            return Ok(Some((k, kind, at)));
        }
    }
    Ok(None)
}

// The verdict on the program of the k-th input. The outputs are lent to its context, and come back where there is a
// verdict.
fn verdict_on<H: IdHash, C: SigCheck>(
    alloc: Global,
    hash: &H,
    sigs: &C,
    tx: &Tx,
    ids: &TxIds,
    k: u64,
    outs: &mut Outs,
) -> Result<Verdict, NoMemory>
    requires tx { IsTx tx.now }
    requires ids { AreIds (H.hash_of hash.now) tx.now ids.now }
    requires there { k < length tx.now.inputs }
    requires outs { outs.old ≡ seen_outputs (H.hash_of hash.now) tx.now }
    ensures verdict { IfOk result (VerdictAt (H.hash_of hash.now) (C.good_of sigs.now) tx.now k) }
    ensures same { OnOk result (outs.new ≡ outs.old) }
{
    let lent = replace(outs, Outs::new(alloc));
    let context = context_with(alloc, hash, tx, ids, k, lent)?;
    let input = &tx.inputs.as_slice()[k as usize];
    let program = program_in(input).as_slice();
    let verdict = verify(alloc, &context, sigs, program, args_in(input), RUN_LIMIT)?;
    *outs = own_outs(alloc, context);
    Ok(verdict)
}

// The outputs that were lent to a context.
fn own_outs(alloc: Global, context: Context) -> Outs
    ensures { (seen : TxContext) → context ≡ Context.Tx seen → result ≡ seen.outs }
{
    match context {
        Context::Tx(seen) => seen.outs,
        _ => Outs::new(alloc),
    }
}

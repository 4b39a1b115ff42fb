//! What a signature of an input signs.
ghost use Rattle.std.specs.Prelude.{◌≡◌, ◌++◌, IfOk, OnOk};
ghost use Rattle.entry_ids.specs.Ids.{sig_hash};

use keyed::IdHash;
use std::alloc::Global;
use wire::{Id, NoMemory, Writer};

/// What a signature of an input signs: the hash of the id of its entry and that of the transaction.
#[tactic(auto, unfolding(crate::specs::Ids::sig_hash))]
pub fn sig_hash<H: IdHash>(alloc: Global, hash: &H, entry: &Id, tx: &Id) -> Result<Id, NoMemory>
    ensures { IfOk result (λ id. id ≡ sig_hash (H.hash_of hash.now) entry.now tx.now) }
{
    let mut text = Writer::new(alloc)?;
    put_ids(entry, tx, &mut text)?;
    Ok(hash.hash(text.as_slice()))
}

// Adds two ids.
fn put_ids(entry: &Id, tx: &Id, text: &mut Writer) -> Result<(), NoMemory>
    ensures { OnOk result (text.new ≡ text.old ++ entry.now ++ tx.now) }
{
    text.raw(entry)?;
    text.raw(tx)
}

//! The id of an asset.
ghost use Rattle.std.specs.Prelude.{◌≡◌, ◌++◌, IfOk, OnOk, codes};
ghost use Rattle.wire.specs.Spelling.{varstring};
ghost use Rattle.entry_ids.specs.Ids.{asset_id};

use keyed::IdHash;
use std::alloc::Global;
use wire::{Id, NoMemory, Writer};

/// The id of an asset of the chain with this initial block: that of its program and its definition.
#[tactic(auto, unfolding(crate::specs::Ids::asset_id))]
pub fn asset_id<H: IdHash>(
    alloc: Global,
    hash: &H,
    initial: &Id,
    program: &[u8],
    definition: &[u8],
) -> Result<Id, NoMemory>
    ensures { IfOk result
        (λ id. id ≡ asset_id (H.hash_of hash.now) initial.now program.now definition.now) }
{
    let mut text = Writer::new(alloc)?;
    put_asset(initial, program, definition, &mut text)?;
    Ok(hash.hash(text.as_slice()))
}

// Adds what is hashed to the id of an asset.
fn put_asset(
    initial: &Id,
    program: &[u8],
    definition: &[u8],
    text: &mut Writer,
) -> Result<(), NoMemory>
    ensures { let before = text.old ++ codes "asset1:" ++ initial.now in
        OnOk result (text.new ≡ before ++ varstring program.now ++ varstring definition.now) }
{
    text.raw(b"asset1:")?;
    text.raw(initial)?;
    text.text(program)?;
    text.text(definition)
}

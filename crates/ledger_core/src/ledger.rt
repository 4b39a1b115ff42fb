//! The ledger: its blocks, and what is unspent and live after them.
ghost use Rattle.std.specs.Prelude.{◌≡◌, Some};
ghost use Rattle.data_model.specs.declared.block.Block.{Block};
ghost use Rattle.data_model.specs.Limits.{IsString};
ghost use Rattle.ledger_core.specs.Blocks.{tip_of};
ghost use Rattle.ledger_core.specs.LedgerModel.{IsSpellable};

use crate::{LiveNonce, Unspent};
use data_model::{Block, Blocks};
use std::marker::Model;
use wire::Id;

/// A chain of blocks, from its initial block on, with the outputs that are unspent and the nonces that are live. It
/// stands for the hash and the check of signatures that it was made with.
#[derive(Debug, Drop)]
pub struct Ledger {
    pub(crate) blocks: Blocks,
    pub(crate) initial: Id,
    pub(crate) tip_id: Id,
    pub(crate) empty_root: Id,
    // In the order in which they were made.
    pub(crate) unspent: Vec<Unspent>,
    pub(crate) live: Vec<LiveNonce>,
}

impl Model for Ledger {
    ghost use Rattle.std.specs.Prelude.{◌<◌, length};
    ghost use Rattle.std.specs.List.{AllByRecursion};
    ghost use Rattle.ledger_core.specs.LedgerModel.{LedgerModel, IsSpellable};

    ghost Value = { LedgerModel };

    ghost view = { λ ledger. record {
      blocks = ledger.blocks;
      initial = ledger.initial;
      tip_id = ledger.tip_id;
      empty_root = ledger.empty_root;
      unspent = ledger.unspent.items;
      live = ledger.live.items;
    } };

    ghost invariant = { λ ledger. (0 < length ledger.blocks) × AllByRecursion IsSpellable ledger.blocks };
}

/// The last block of a chain.
#[derive(Clone, Copy, Debug)]
pub struct Tip<'a> {
    pub height: u64,
    pub id: Id,
    /// When the block was made, in the unit that the chain has chosen.
    pub time: u64,
    pub version: u64,
    /// The program that the next block has to satisfy.
    pub next_program: &'a [u8],
}

impl Ledger {
    /// The last block. It takes no memory.
    pub fn tip(&self) -> Tip<'_>
        ensures block { (tip : Block)
            × (tip_of self.now.blocks ≡ Some tip)
            × (result.height ≡ tip.header.height)
            × (result.time ≡ tip.header.time)
            × (result.version ≡ tip.header.version)
            × (result.next_program.now ≡ tip.header.next_program) }
        ensures id { result.id ≡ self.now.tip_id }
        ensures program { IsString result.next_program.now }
    {
        let block = self.tip_block();
        Tip {
            height: block.header.height,
            id: self.tip_id,
            time: block.header.time,
            version: block.header.version,
            next_program: block.header.next_program.as_slice(),
        }
    }

    // The last block.
    pub(crate) fn tip_block(&self) -> &Block
        ensures tip { tip_of self.now.blocks ≡ Some result.now }
        ensures within { IsSpellable result.now }
    {
        match self.blocks.as_slice().last() {
            Some(block) => block,
            None => unreachable!(),
        }
    }

    /// The blocks, the initial one first. It takes no memory.
    pub fn blocks(&self) -> &[Block]
        ensures { result.now ≡ self.now.blocks }
    {
        self.blocks.as_slice()
    }
}

//! Laws of the definitions, each the contract of a function with nothing to do.
ghost use Rattle.keyed.specs.Functions.{Check, Hash};
ghost use Rattle.ledger_file.specs.Laws.{FewBlocks, KeepsUnits, LoadLaws};

use data_model::block_files;
use ledger_core::{conserved_units, growing_chains, one_refusal, one_refusal_of_blocks};

/// Bytes are the file of one ledger, or have one first fault.
pub fn one_load()
    ensures { (hash : Hash) (check : Check) → LoadLaws hash check }
{
    block_files();
    one_refusal_of_blocks();
    one_refusal();
    growing_chains();
}

/// A file has no more blocks than bytes.
pub fn few_blocks()
    ensures { FewBlocks }
{}

/// Whoever holds a file that loads as a ledger knows that no unit appeared from nothing: of each asset, what is unspent
/// in it is what was issued in its blocks less what was retired.
pub fn kept_units()
    ensures { (hash : Hash) (check : Check) → KeepsUnits hash check }
{
    conserved_units();
}

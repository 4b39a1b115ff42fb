//! The laws of the crates below.
ghost use Rattle.chain_top.specs.Known.{Known};

use data_model::block_files;
use ledger_core::{growing_chains, one_refusal};
use ledger_file::{few_blocks, one_load};
use replies::{replies_tell, steps_join};
use vm_run::laws::one_verdict;

/// The laws of the crates below, for the proofs of this one. It does nothing when it runs.
pub fn known()
    ensures { Known }
{
    steps_join();
    replies_tell();
    block_files();
    few_blocks();
    one_verdict();
    one_refusal();
    growing_chains();
    one_load();
}

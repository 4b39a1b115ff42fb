//! Conservation, as the contract of a function with nothing to do.
ghost use Rattle.keyed.specs.Functions.{Hash, Check};
ghost use Rattle.ledger_core.specs.Conservation.{Conserves};

use crate::valid_blocks;
use tx_check::laws::valid_transactions;

/// No unit appears from nothing and none is lost: of each asset, what is unspent after the blocks of a chain is what
/// was issued in them less what was retired. It does nothing when it runs.
pub fn conserved_units()
    ensures { (hash : Hash) (check : Check) → Conserves hash check }
{
    valid_blocks();
    valid_transactions();
}

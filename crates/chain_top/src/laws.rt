//! Laws of the model, each the contract of a function with nothing to do.
ghost use Rattle.keyed.specs.Functions.{Check, Hash};
ghost use Rattle.chain_top.specs.Growth.{GrowthLaws, CrashLaws};
ghost use Rattle.chain_top.specs.Laws.{ReplyLaws};

use crate::known::known;
use outside::{moments_join, others_stay, starts_kept};

/// The model gives one reply to all words, whatever bytes the files hold. It has status 1 exactly where the words are
/// outside the grammar, and no command of today goes by what a compiler chose.
pub fn one_reply()
    ensures { (hash : Hash) (check : Check) → ReplyLaws hash check }
{
    known();
}

/// A ledger grows by exactly the offered blocks that are accepted one after the other, or not at all.
pub fn growing_ledgers()
    ensures { (hash : Hash) (check : Check) → GrowthLaws hash check }
{
    known();
}

/// A crash at any moment of `apply` leaves of a ledger what it had, the frames of the first blocks that are added, and
/// a torn one.
pub fn torn_ledgers()
    ensures { (hash : Hash) (check : Check) → CrashLaws hash check }
{
    growing_ledgers();
    moments_join();
    others_stay();
    starts_kept();
}

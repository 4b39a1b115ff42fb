//! Laws of the definitions, each the contract of a function with nothing to do.
ghost use Rattle.keyed.specs.Functions.{Check, Hash};
ghost use Rattle.ledger_core.specs.Laws.{TableLaws, RefusalLaws, ValidLaws, ChainLaws, OfferLaws};

use tx_check::laws as tx_laws;
use vm_run::laws::one_verdict;

/// Of the table of what may be wrong with an initial block there is one answer, and one of the table of refusals, with
/// and without B7.
pub fn one_refusal_of_blocks()
    ensures { (hash : Hash) (check : Check) → TableLaws hash check }
{
    one_verdict();
    tx_laws::one_refusal();
}

/// A block that is offered after some blocks has one refusal, or none; and so has one whose arguments are not there as
/// yet, by the table without B7.
pub fn one_refusal()
    ensures { (hash : Hash) (check : Check) → RefusalLaws hash check }
{
    one_verdict();
    tx_laws::one_refusal();
}

/// What the blocks have that start a chain, and those that extend one.
pub fn valid_blocks()
    ensures { (hash : Hash) (check : Check) → ValidLaws hash check }
{
    one_verdict();
    tx_laws::one_refusal();
}

/// A chain grows by its valid next blocks, and in no other way.
pub fn growing_chains()
    ensures { (hash : Hash) (check : Check) → ChainLaws hash check }
{}

/// A list of offers has one outcome, and one offer more takes its turn at the end.
pub fn accepted_offers()
    ensures { (hash : Hash) (check : Check) → OfferLaws hash check }
{
    one_verdict();
    tx_laws::one_refusal();
}

//! Laws of the definitions, each the contract of a function with nothing to do.
ghost use Rattle.std.specs.Prelude.{◌↔◌, ℕ, List};
ghost use Rattle.data_model.specs.Transaction.{IsTx};
ghost use Rattle.data_model.specs.declared.tx.Tx.{Tx};
ghost use Rattle.keyed.specs.Functions.{Hash, Check};
ghost use Rattle.vm_run.specs.Ids.{IsId, HasIds};
ghost use Rattle.vm_run.specs.declared.context.Context.{Context};
ghost use Rattle.tx_check.specs.Contexts.{IsContext};
ghost use Rattle.tx_check.specs.View.{State};
ghost use Rattle.tx_check.specs.Table.{TxValid};
ghost use Rattle.tx_check.specs.Valid.{Valid};
ghost use Rattle.tx_check.specs.Laws.{RefusalLaws};

use vm_run::laws::one_verdict;

/// A transaction has one refusal, or none.
pub fn one_refusal()
    ensures { (hash : Hash) (check : Check) → RefusalLaws hash check }
{
    one_verdict();
}

/// What a transaction has that is not refused, fact by fact; and what has all of it is not refused.
pub fn valid_transactions()
    ensures { (hash : Hash) (check : Check) (state : State) (time : ℕ) (tx : Tx)
        → TxValid hash check state time tx ↔ Valid hash check state time tx }
{
    one_verdict();
}

/// The ids and hashes of an input's context have 32 bytes, for every hash whose values have. It does nothing when it
/// runs.
pub fn context_ids()
    ensures { (hash : Hash) → ((bytes : List ℕ) → IsId (hash bytes)) → (tx : Tx) (k : ℕ) (context : Context) → IsTx tx
        → IsContext hash tx k context → HasIds context }
{}

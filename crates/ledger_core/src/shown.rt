//! What a ledger shows to the rules of transactions, alone and with the transactions of an unfinished block.
ghost use Rattle.std.specs.Prelude.{◌≡◌, ◌↔◌, ℕ, List, IfSome, IsNone, IfOk, map, IsTrue, Contains};
ghost use Rattle.merkle.specs.Roots.{IsIncreasing};
ghost use Rattle.tx_check.specs.View.{HasId, Holds};
ghost use Rattle.ledger_core.specs.LedgerModel.{shown};
ghost use Rattle.ledger_core.specs.Roots.{output_ids};
ghost use Rattle.ledger_core.specs.Unspent.{left_of};

use crate::roots::{add_ids, put_in_order};
use crate::unfinished::{Changes, is_among};
use crate::{Ledger, LiveNonce, Unspent};
use data_model::{Ids, OutputBody};
use std::alloc::Global;
use tx_check::View;
use wire::{Id, NoMemory};

impl Ledger {
    /// The body of the unspent output with this id, and `None` exactly where there is none. It takes no memory.
    pub fn unspent(&self, id: &Id) -> Option<&OutputBody>
        ensures body { IfSome result (λ body. Holds (shown self.now) id.now body.now) }
        ensures none { IsNone result ↔ (HasId (shown self.now) id.now → ⊥) }
    {
        match with_id(self.unspent.as_slice(), id) {
            Some(output) => Some(&output.body),
            None => None,
        }
    }

    /// The ids of the unspent outputs, strictly increasing.
    pub fn unspent_ids(&self, alloc: Global) -> Result<Ids, NoMemory>
        ensures increasing { IfOk result IsIncreasing }
        ensures members { IfOk result (λ ids. (id : List ℕ) → Contains ids id ↔ HasId (shown self.now) id) }
    {
        let mut ids = Vec::with_capacity(alloc, self.unspent.len())?;
        add_ids(&mut ids, self.unspent.as_slice(), &[])?;
        put_in_order(&mut ids);
        Ok(Ids::from_vec(ids))
    }
}

impl View for Ledger {
    ghost use Rattle.ledger_core.specs.LedgerModel.{shown};

    ghost state_of = { shown };

    fn initial(&self) -> Id {
        self.initial
    }

    fn has_id(&self, id: &Id) -> bool {
        has_id(self.unspent.as_slice(), id)
    }

    fn holds(&self, id: &Id, body: &OutputBody) -> bool {
        holds(self.unspent.as_slice(), id, body)
    }

    fn live_nonce(&self, id: &Id) -> bool {
        is_live(self.live.as_slice(), id)
    }
}

// A ledger and what the transactions of an unfinished block have changed so far.
#[derive(Drop)]
pub(crate) struct Unfinished<'a> {
    pub(crate) ledger: &'a Ledger,
    pub(crate) changes: &'a Changes,
}

impl<'a> View for Unfinished<'a> {
    ghost use Rattle.ledger_core.specs.LedgerModel.{shown_with};

    ghost state_of = { λ view. shown_with view.ledger.now view.changes.now.made.items view.changes.now.spent.items
        view.changes.now.used.items };

    fn initial(&self) -> Id {
        let ledger = self.ledger;
        ledger.initial
    }

    fn has_id(&self, id: &Id) -> bool {
        let ledger = self.ledger;
        let changes = self.changes;
        has_left_id(ledger.unspent.as_slice(), changes.spent.as_slice(), id)
            || has_id(changes.made.as_slice(), id)
    }

    fn holds(&self, id: &Id, body: &OutputBody) -> bool {
        let ledger = self.ledger;
        let changes = self.changes;
        holds_left(
            ledger.unspent.as_slice(),
            changes.spent.as_slice(),
            id,
            body,
        ) || holds(changes.made.as_slice(), id, body)
    }

    fn live_nonce(&self, id: &Id) -> bool {
        let ledger = self.ledger;
        let changes = self.changes;
        is_live(ledger.live.as_slice(), id) || is_live(changes.used.as_slice(), id)
    }
}

// One of these outputs that are not spent has this id.
fn has_left_id(outputs: &[Unspent], spent: &[Id], id: &Id) -> bool
    ensures { IsTrue result ↔ Contains (output_ids (left_of spent.now outputs.now)) id.now }
{
    has_id(outputs, id) && !is_among(spent, id)
}

// One of these outputs that are not spent has this id and this body.
fn holds_left(outputs: &[Unspent], spent: &[Id], id: &Id, body: &OutputBody) -> bool
    ensures { IsTrue result ↔ Contains (left_of spent.now outputs.now) (record { id = id.now; body = body.now }) }
{
    holds(outputs, id, body) && !is_among(spent, id)
}

// The first of these outputs that has this id.
fn with_id<'a>(outputs: &'a [Unspent], id: &Id) -> Option<&'a Unspent>
    ensures found { IfSome result (λ output. (output.now.id ≡ id.now) × Contains outputs.now output.now) }
    ensures none { IsNone result ↔ (Contains (output_ids outputs.now) id.now → ⊥) }
{
    outputs.iter().find(|output| output.id == *id)
}

// One of these outputs has this id.
fn has_id(outputs: &[Unspent], id: &Id) -> bool
    ensures { IsTrue result ↔ Contains (map (λ output. output.id) outputs.now) id.now }
{
    outputs.iter().any(|output| output.id == *id)
}

// One of these outputs has this id and this body.
fn holds(outputs: &[Unspent], id: &Id, body: &OutputBody) -> bool
    ensures { IsTrue result ↔ Contains outputs.now (record { id = id.now; body = body.now }) }
{
    outputs
        .iter()
        .any(|output| output.id == *id && is_body(&output.body, body))
}

// Two bodies are equal.
fn is_body(body: &OutputBody, other: &OutputBody) -> bool
    ensures { IsTrue result ↔ (body.now ≡ other.now) }
{
    body.source == other.source
        && body.position == other.position
        && body.asset == other.asset
        && body.amount == other.amount
        && body.data_hash == other.data_hash
        && body.program.as_slice() == other.program.as_slice()
}

// One of these nonces has this id.
fn is_live(nonces: &[LiveNonce], id: &Id) -> bool
    ensures { IsTrue result ↔ Contains (map (λ nonce. nonce.id) nonces.now) id.now }
{
    nonces.iter().any(|nonce| nonce.id == *id)
}

//! What a small chain shows: at most one unspent output and one live nonce.
ghost use Rattle.std.specs.Prelude.{◌≡◌, ◌↔◌, IsTrue};

use data_model::OutputBody;
use tx_check::View;
use wire::Id;

// An unspent output, with its id.
#[derive(Drop)]
pub struct Kept {
    pub id: Id,
    pub body: OutputBody,
}

#[derive(Drop)]
pub struct Shown {
    pub initial: Id,
    pub unspent: Option<Kept>,
    pub live: Option<Id>,
}

impl View for Shown {
    ghost use Rattle.std.specs.Prelude.{map};
    ghost use Rattle.std.specs.Option.{option_to_list};

    ghost state_of = { λ shown. record {
      initial = shown.initial;
      unspent = map (λ kept. record { id = kept.id; body = kept.body }) (option_to_list shown.unspent);
      live = option_to_list shown.live;
    } };

    fn initial(&self) -> Id {
        self.initial
    }

    fn has_id(&self, id: &Id) -> bool {
        match &self.unspent {
            Some(kept) => kept.id == *id,
            None => false,
        }
    }

    fn holds(&self, id: &Id, body: &OutputBody) -> bool {
        match &self.unspent {
            Some(kept) => kept.id == *id && same_body(&kept.body, body),
            None => false,
        }
    }

    fn live_nonce(&self, id: &Id) -> bool {
        match &self.live {
            Some(nonce) => nonce == id,
            None => false,
        }
    }
}

// Two bodies are the same.
fn same_body(a: &OutputBody, b: &OutputBody) -> bool
    ensures { IsTrue result ↔ (a.now ≡ b.now) }
{
    if a.source != b.source || a.position != b.position {
        return false;
    }
    if a.asset != b.asset || a.amount != b.amount {
        return false;
    }
    a.program.as_slice() == b.program.as_slice() && a.data_hash == b.data_hash
}

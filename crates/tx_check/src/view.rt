//! What a check of a transaction sees of the ledger.
ghost use Rattle.std.specs.Prelude.{◌≡◌, ◌↔◌, IsTrue};
ghost use Rattle.tx_check.specs.View.{State, HasId, Holds, IsLive};

use data_model::OutputBody;
use wire::Id;

/// What a chain shows to the rules of transactions: its initial block, the outputs that are unspent and the nonces that
/// are live. Looking at it takes no memory.
pub trait View {
    /// What is shown.
    ghost state_of: { Self → State };

    /// The id of the initial block.
    fn initial(&self) -> Id
        ensures { result ≡ (state_of self.now).initial };

    /// An unspent output has this id.
    fn has_id(&self, id: &Id) -> bool
        ensures { IsTrue result ↔ HasId (state_of self.now) id.now };

    /// An unspent output has this id and this body.
    fn holds(&self, id: &Id, body: &OutputBody) -> bool
        ensures { IsTrue result ↔ Holds (state_of self.now) id.now body.now };

    /// A nonce of this id is live.
    fn live_nonce(&self, id: &Id) -> bool
        ensures { IsTrue result ↔ IsLive (state_of self.now) id.now };
}

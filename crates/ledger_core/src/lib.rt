//! The ledger of one chain: a list of blocks, each of which satisfies the consensus program that the one before it
//! names. A ledger starts at an initial block and grows by the offered blocks that validly extend it. It keeps which
//! outputs are unspent and which nonces are live.
#![tactic(auto)]

mod conservation;
mod laws;
mod ledger;
mod offer;
mod refusal;
mod roots;
mod settle;
mod shown;
mod start;
mod txs;
mod unfinished;

pub use conservation::conserved_units;
pub use laws::{accepted_offers, growing_chains, one_refusal, one_refusal_of_blocks, valid_blocks};
pub use ledger::{Ledger, Tip};
pub use offer::Accepted;
pub use refusal::{BlockRefusal, OfferFault, StartFault};
pub use unfinished::{LiveNonce, Unspent};
pub use wire::NoMemory;

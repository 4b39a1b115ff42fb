//! Files of ledgers: the frames of a chain's blocks one after the other, with nothing between them. A ledger is loaded
//! from its file by replay: the first block starts the chain, and each later one is offered in order. A block is added
//! to a file by one append of its frame; frames that were read are split apart by their lengths and added as they are.
#![tactic(auto)]

mod append;
mod fault;
mod laws;
mod loading;
mod split;

pub use append::{append_block, append_frame};
pub use data_model::frame;
pub use fault::LoadFault;
pub use laws::{few_blocks, kept_units, one_load};
pub use loading::load;
pub use split::split_frame;

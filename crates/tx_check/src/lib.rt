//! Which transactions a block may hold after what a chain shows: the table of refusals, of which the first cause that
//! holds is reported; and what the program of an input may ask for.
#![tactic(auto)]

mod assets;
mod check;
mod context;
pub mod laws;
mod names;
mod parts;
mod programs;
mod refusal;
mod shown;
mod times;
mod view;

pub use check::{check_tx, check_with_ids};
pub use context::context_of;
pub use refusal::{TxFault, TxRefusal};
pub use view::View;
pub use vm_run::NoMemory;

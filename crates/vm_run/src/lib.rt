//! The virtual machine (Chain VM 1): it runs a program on its arguments under a limit, and says how the run ends.
#![tactic(auto)]

mod context;
mod control;
mod fault;
mod high;
mod introspection;
pub mod laws;
mod machine;
mod moving;
mod numbers;
mod operands;
mod predicate;
mod run;
mod signing;
mod step;
mod strings;
mod transaction;
mod verdict;

pub use context::{BlockContext, Context};
use fault::StepFault;
pub use transaction::{OutSeen, Outs, TxContext};
pub use verdict::{Verdict, verify};
pub use wire::NoMemory;

//! What contracts of Ivy mean: the values of their expressions, when a clause holds, and which clause is selected. Core
//! are small trees that say the same without lists of expressions.
#![tactic(auto)]

mod clauses;
mod evaluation;
mod kind;
mod laws;
mod lower;
mod naming;
mod tree;

pub use clauses::cores;
pub use evaluation::eval;
pub use kind::Kind;
pub use laws::selection;
pub use std::alloc::AllocError as NoMemory;
pub use tree::{
    BinaryOp, Core, CoreClause, CoreClauses, CoreContract, CoreContracts, CoreStep, CoreSteps,
    CoreWorth, Place, Places, UnaryOp,
};

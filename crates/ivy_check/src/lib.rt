//! The typing rules of the contract language Ivy: the first type fault of a text's syntax tree, or that there is none.
#![tactic(auto)]

mod contract;
mod counts;
mod declare;
mod expression;
mod fault;
mod functions;
mod inferred;
mod laws;
mod operators;
mod parameters;
mod scope;
mod statement;
mod typed;
mod types;
mod uses;
mod verdict;

pub use counts::{clause_key_count, clause_use_count, key_count, use_count};
pub use fault::TypeFault;
pub use functions::{Function, ParamType, ParamTypes};
pub use laws::{expression_types, parameter_places, type_faults, use_counts, well_typed};
pub use parameters::{Param, Params, all_params, params, place_of};
pub use scope::Scope;
pub use typed::{common_type, expression_type};
pub use types::IvyType;
pub use verdict::{Checked, check};

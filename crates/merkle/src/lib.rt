//! Roots of ids, for any hash: of a list, in which each id has its place, and of a set.
#![tactic(auto)]

pub mod laws;
mod list;
mod node;
mod set;

pub use list::list_root;
pub use set::set_root;

//! The stacks of the virtual machine (Chain VM 1): a data stack, an alt stack and the cost of what they hold.
#![tactic(auto)]

mod fault;
mod item;
mod stack;

pub use fault::StackFault;
pub use stack::Stack;

//! CHECKPREDICATE: the child that it opens, and what that leaves.
ghost use Rattle.std.specs.Prelude.{◌≡◌, ◌<◌, ◌≤◌, ◌+◌, ◌^◌, IfOk};
ghost use Rattle.vm_stack.specs.Stacks.{held_cost};
ghost use Rattle.vm_run.specs.Ends.{Closed, given_by, good_end};
ghost use Rattle.vm_run.specs.Follows.{IsOpened, call_move};

use crate::machine::Machine;
use crate::numbers::truth_bytes;
use crate::operands::{called, top_is_true};
use crate::run::End;
use crate::{NoMemory, StepFault};
use vm_num::Failure;
use vm_stack::Stack;

/// A child at its start, on the program that is the second of the items that were popped for it.
#[derive(Drop)]
pub struct Opened {
    pub child: Machine,
    pub popped: Stack,
}

impl Machine {
    /// The instruction CHECKPREDICATE: takes its three items and those that it counts off the stack, and the child's
    /// limit from what is left.
    pub fn open(&mut self) -> Result<Opened, StepFault>
        requires small { self.old.left + held_cost self.old.stack < 2 ^ 63 }
        ensures opened { IsOpened (call_move self.old) result self.new }

        // What is left and what is held fall together, those of the child counted.
        ensures falls { IfOk result (λ o. self.new.left + held_cost self.new.stack + (o.child.left + held_cost
            o.child.stack) < self.old.left + held_cost self.old.stack) }

        // What comes back at once covers the item of a result.
        ensures repaid { IfOk result (λ o. 192 ≤ self.new.left) }
    {
        let (count, asked) = called(&self.stack)?;
        if self.left < 256 || self.left - 256 < asked {
            return Err(StepFault::Failed(Failure::RunLimit));
        }
        let left = self.left - 256;
        let limit = if asked == 0 { left } else { asked };
        // The items are there, so that only memory can be wanting.
        let Ok(popped) = self.stack.split_top(3) else {
            return Err(StepFault::NoMemory);
        };
        let Ok(moved) = self.stack.split_top(count) else {
            return Err(StepFault::NoMemory);
        };
        // Whatever becomes of the child, 192 of the base come back.
        self.left = left - limit + 192 + popped.held();
        let child = Machine {
            stack: moved,
            left: limit,
            at: 0,
        };
        Ok(Opened { child, popped })
    }

    /// Takes back what a good child has when it has run, and pushes whether it was good. What came back for the opening
    /// covers that item.
    pub fn close(&mut self, child: &Machine, end: End) -> Result<(), NoMemory>
        requires covered { 9 ≤ self.old.left }
        requires small { self.old.left + given_by end child.now < 2 ^ 63 }
        ensures { IfOk result (λ done. Closed end child.now self.old self.new) }
    {
        let good = is_good(end, child);
        if good {
            self.left += child.left + child.stack.held();
        }
        let result = truth_bytes(good);
        self.left -= 8 + result.len() as u64;
        match self.stack.push(result) {
            Ok(()) => Ok(()),
            Err(_) => Err(NoMemory),
        }
    }
}

// Whether a child is good: it has ended, with a true top item.
fn is_good(end: End, child: &Machine) -> bool
    ensures { result ≡ good_end end child.now }
{
    match end {
        End::Ended => top_is_true(&child.stack),
        End::Failed { .. } => false,
    }
}

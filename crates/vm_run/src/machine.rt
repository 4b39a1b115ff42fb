//! The state of a run, and how an effect on it is paid for.
ghost use Rattle.std.specs.Prelude.{◌≡◌, ◌<◌, ◌≤◌, ◌+◌, ◌^◌, [], ◌∷◌, length};
ghost use Rattle.vm_stack.specs.Stacks.{held_cost, item_at};
ghost use Rattle.vm_run.specs.Effect.{does};
ghost use Rattle.vm_run.specs.Follows.{Follows, Popped, Pushed};

use crate::StepFault;
use keyed::Pile;
use vm_num::Failure;
use vm_stack::Stack;

/// The stacks, what is left of the run limit, and the place of the next instruction. After a fault the stacks and the
/// limit are those of no state of the run.
#[derive(Drop)]
pub struct Machine {
    pub stack: Stack,
    pub left: u64,
    pub at: u64,
}

impl Machine {
    /// Pays a base cost.
    pub fn pay(&mut self, base: u64) -> Result<(), StepFault>
        ensures { Follows self.old (does 0 [] base) result self.new }
    {
        if self.left < base {
            return Err(StepFault::Failed(Failure::RunLimit));
        }
        self.left -= base;
        Ok(())
    }

    /// Pays a base cost and pops n items.
    pub fn pop(&mut self, n: u64, base: u64) -> Result<(), StepFault>
        requires there { n ≤ length self.old.stack.items }
        requires small { self.old.left + held_cost self.old.stack < 2 ^ 63 }
        ensures popped { Popped self.old n base result self.new }
        ensures follows { Follows self.old (does n [] base) result self.new }
    {
        if self.left < base {
            return Err(StepFault::Failed(Failure::RunLimit));
        }
        let held = self.stack.held();
        match self.stack.drop_top(n) {
            Ok(()) => {
                self.left = self.left - base + (held - self.stack.held());
                Ok(())
            }
            Err(_) => Err(StepFault::Failed(Failure::Underflow)),
        }
    }

    /// Pays for an item in the place of the top n, and puts it there.
    pub fn put(&mut self, n: u64, item: &[u8], base: u64) -> Result<(), StepFault>
        requires there { n ≤ length self.old.stack.items }
        requires small { self.old.left + held_cost self.old.stack < 2 ^ 63 }
        ensures { Follows self.old (does n (item.now ∷ []) base) result self.new }
    {
        self.pop(n, base)?;
        self.push(item)
    }

    /// Pays a base cost and for an item, and pushes it.
    pub fn add(&mut self, item: &[u8], base: u64) -> Result<(), StepFault>
        ensures { Follows self.old (does 0 (item.now ∷ []) base) result self.new }
    {
        if self.left < base {
            return Err(StepFault::Failed(Failure::RunLimit));
        }
        self.left -= base;
        self.push(item)
    }

    // Pays for an item and pushes it.
    fn push(&mut self, item: &[u8]) -> Result<(), StepFault>
        ensures { Pushed self.old item.now result self.new }
    {
        let price = 8 + item.len() as u64;
        if self.left < price {
            return Err(StepFault::Failed(Failure::RunLimit));
        }
        match self.stack.push(item) {
            Ok(()) => {
                self.left -= price;
                Ok(())
            }
            Err(_) => Err(StepFault::NoMemory),
        }
    }

    /// Pays for a copy of the item k below the top, and pushes it.
    pub fn copy(&mut self, k: u64) -> Result<(), StepFault>
        requires there { k < length self.old.stack.items }
        ensures { Pushed self.old (item_at k self.old.stack.items) result self.new }
    {
        let Some(item) = self.stack.item(k) else {
            return Err(StepFault::Failed(Failure::Underflow));
        };
        let price = 8 + item.len() as u64;
        if self.left < price {
            return Err(StepFault::Failed(Failure::RunLimit));
        }
        match self.stack.pick(k) {
            Ok(()) => {
                self.left -= price;
                Ok(())
            }
            Err(_) => Err(StepFault::NoMemory),
        }
    }
}

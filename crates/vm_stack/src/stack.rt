//! The data stack and the alt stack, with the cost of their items kept beside them.
ghost use Rattle.std.specs.Prelude.{◌≡◌, ◌≢◌, ◌≤◌, ◌<◌, ◌^◌, ◌+◌, ◌-◌, ◌↔◌, [], ◌∷◌, length, take, drop, IsErrOf};
ghost use Rattle.std.specs.Prelude.{IsOkUnless, OnOk, OnErr, IfOk, IfErr, IfSome, IsNone, ◌++◌, vec_len};
ghost use Rattle.std.specs.Prelude.{slice_index_or, remove};
ghost use Rattle.vm_stack.specs.Stacks.{held_cost, picked, rolled, moved_to_alt, moved_from_alt};
ghost use Rattle.vm_num.specs.Item.{total_cost};

use crate::StackFault;
use crate::item::{Item, cost_behind};
use keyed::Pile;
use std::alloc::Global;
use std::marker::Model;

/// A data stack and an alt stack, and what their items cost: 8 and its length for each (Chain VM 1, the cost of an
/// item).
///
/// That sum is kept below 2^64. Each byte that it counts stands in memory, and so do the three words of each item's
/// vector, for which it counts 8. So no memory holds a stack that costs more, and a push that would pass 2^64 - 1
/// answers `NoMemory`.
#[derive(Drop)]
pub struct Stack {
    // Of both the deepest item first.
    items: Vec<Item>,
    alt: Vec<Item>,
    held: u64,
    alloc: Global,
}

impl Model for Stack {
    ghost use Rattle.std.specs.Prelude.{◌≡◌, ◌+◌, reverse};
    ghost use Rattle.vm_num.specs.Item.{total_cost};
    ghost use Rattle.vm_stack.specs.Stacks.{Stacks};

    ghost Value = { Stacks };

    ghost view = { λ s. record { items = reverse s.items.items; alt = reverse s.alt.items } };

    ghost invariant = { λ s. s.held ≡ total_cost s.items.items + total_cost s.alt.items };
}

impl Stack {
    /// Two empty stacks. Nothing is allocated.
    pub fn new(alloc: Global) -> Stack
        ensures { result ≡ record { items = []; alt = [] } }
    {
        Stack {
            items: Vec::new(alloc),
            alt: Vec::new(alloc),
            held: 0,
            alloc,
        }
    }

    /// How many items the data stack has.
    pub fn depth(&self) -> u64
        ensures { result ≡ length self.now.items }
    {
        self.items.len() as u64
    }

    /// How many items the alt stack has.
    pub fn alt_depth(&self) -> u64
        ensures { result ≡ length self.now.alt }
    {
        self.alt.len() as u64
    }

    /// What the items of both stacks cost together.
    #[tactic(auto, using(crate::proofs::Costs::costs))]
    pub fn held(&self) -> u64
        ensures { result ≡ held_cost self.now }
    {
        self.held
    }

    /// Puts a copy of an item on top.
    pub fn push(&mut self, item: &[u8]) -> Result<(), StackFault>
        ensures ok { OnOk result (self.new ≡ record self.old { items = item.now ∷ self.old.items }) }
        ensures fault { IsOkUnless result StackFault.NoMemory }
        ensures err { OnErr result (self.new ≡ self.old) }
    {
        let item = Vec::from_slice(self.alloc, item)?;
        self.push_vec(item)
    }

    /// Puts an item on top, moved and not copied. A refusal drops it.
    #[tactic(auto, using(crate::proofs::Costs::costs))]
    pub fn push_vec(&mut self, item: Vec<u8>) -> Result<(), StackFault>
        ensures ok { OnOk result (self.new ≡ record self.old { items = item.items ∷ self.old.items }) }
        ensures fault { IsOkUnless result StackFault.NoMemory }
        ensures err { OnErr result (self.new ≡ self.old) }
    {
        let Some(held) = sum_with(self.held, item.len()) else {
            return Err(StackFault::NoMemory);
        };
        self.items.push(Item::from_vec(item))?;
        self.held = held;
        Ok(())
    }

    /// Drops the top n items. `Underflow` comes exactly where there are fewer. It takes no memory.
    #[tactic(auto, using(crate::proofs::Reversed::turned))]
    pub fn drop_top(&mut self, n: u64) -> Result<(), StackFault>
        ensures ok { OnOk result (self.new ≡ record self.old { items = drop n self.old.items }) }
        ensures underflow { IsErrOf result StackFault.Underflow ↔ (length self.old.items < n) }
        ensures fault { IsOkUnless result StackFault.Underflow }
        ensures err { OnErr result (self.new ≡ self.old) }
    {
        let left = below(self.items.len(), n)?;
        let dropped = cost_behind(self.items.as_slice(), left);
        self.items.truncate(left);
        self.held -= dropped;
        Ok(())
    }

    /// Copies the item n below the top onto the top, the top itself for 0. `Underflow` comes exactly where there are at
    /// most n items.
    pub fn pick(&mut self, n: u64) -> Result<(), StackFault>
        ensures ok { OnOk result (self.new ≡ record self.old { items = picked n self.old.items }) }
        ensures underflow { IsErrOf result StackFault.Underflow ↔ (length self.old.items ≤ n) }
        ensures fault { IfErr result (λ fault. fault ≢ StackFault.AltUnderflow) }
        ensures err { OnErr result (self.new ≡ self.old) }
    {
        let Some(item) = self.item(n) else {
            return Err(StackFault::Underflow);
        };
        let item = Vec::from_slice(self.alloc, item)?;
        self.push_vec(item)
    }

    /// Moves the item n below the top onto the top. `Underflow` comes exactly where there are at most n items. It takes
    /// no memory.
    #[tactic(auto, using(crate::proofs::Reversed::turned, crate::proofs::Costs::costs))]
    pub fn roll(&mut self, n: u64) -> Result<(), StackFault>
        ensures ok { OnOk result (self.new ≡ record self.old { items = rolled n self.old.items }) }
        ensures underflow { IsErrOf result StackFault.Underflow ↔ (length self.old.items ≤ n) }
        ensures fault { IsOkUnless result StackFault.Underflow }
        ensures err { OnErr result (self.new ≡ self.old) }
        ensures cost { held_cost self.new ≡ held_cost self.old }
    {
        let depth = self.items.len() as u64;
        if depth <= n {
            return Err(StackFault::Underflow);
        }
        let at = (depth - 1 - n) as usize;
        last_from(&mut self.items, at);
        Ok(())
    }

    /// Moves the top item to the alt stack. `Underflow` comes exactly where there is no item.
    pub fn to_alt(&mut self) -> Result<(), StackFault>
        ensures ok { OnOk result (self.new ≡ moved_to_alt self.old) }
        ensures underflow { IsErrOf result StackFault.Underflow ↔ (self.old.items ≡ []) }
        ensures fault { IfErr result (λ fault. fault ≢ StackFault.AltUnderflow) }
        ensures err { OnErr result (self.new ≡ self.old) }
        ensures cost { held_cost self.new ≡ held_cost self.old }
    {
        if self.items.is_empty() {
            return Err(StackFault::Underflow);
        }
        self.alt.reserve(1)?;
        let item = self.items.take_last();
        self.alt.push_reserved(item);
        Ok(())
    }

    /// Moves the top of the alt stack onto the data stack. `AltUnderflow` comes exactly where there is none.
    pub fn from_alt(&mut self) -> Result<(), StackFault>
        ensures ok { OnOk result (self.new ≡ moved_from_alt self.old) }
        ensures alt_underflow { IsErrOf result StackFault.AltUnderflow ↔ (self.old.alt ≡ []) }
        ensures fault { IfErr result (λ fault. fault ≢ StackFault.Underflow) }
        ensures err { OnErr result (self.new ≡ self.old) }
        ensures cost { held_cost self.new ≡ held_cost self.old }
    {
        if self.alt.is_empty() {
            return Err(StackFault::AltUnderflow);
        }
        self.items.reserve(1)?;
        let item = self.alt.take_last();
        self.items.push_reserved(item);
        Ok(())
    }

    /// Moves the top n items, in their order, to a new stack, whose alt stack is empty. `Underflow` comes exactly where
    /// there are fewer.
    #[tactic(auto, using(crate::proofs::Reversed::turned))]
    pub fn split_top(&mut self, n: u64) -> Result<Stack, StackFault>
        ensures top { IfOk result (λ top. top ≡ record { items = take n self.old.items; alt = [] }) }
        ensures left { OnOk result (self.new ≡ record self.old { items = drop n self.old.items }) }
        ensures underflow { IsErrOf result StackFault.Underflow ↔ (length self.old.items < n) }
        ensures fault { IfErr result (λ fault. fault ≢ StackFault.AltUnderflow) }
        ensures err { OnErr result (self.new ≡ self.old) }
    {
        let left = below(self.items.len(), n)?;
        let moved = cost_behind(self.items.as_slice(), left);
        let items = self.items.split_off(left)?;
        self.held -= moved;
        Ok(Stack {
            items,
            alt: Vec::new(self.alloc),
            held: moved,
            alloc: self.alloc,
        })
    }
}

impl Pile for Stack {
    ghost items_of = { λ s. s.items };

    fn item(&self, k: u64) -> Option<&[u8]> {
        let depth = self.items.len() as u64;
        if depth <= k {
            return None;
        }
        let at = (depth - 1 - k) as usize;
        Some(self.items[at].as_slice())
    }
}

// Makes the item at this place the last, and keeps the order of the others.
fn last_from(items: &mut Vec<Item>, at: usize)
    requires { at < vec_len items.old }
    ensures items { items.new.items ≡ remove items.old.items at ++ slice_index_or items.old.items at [] ∷ [] }
    ensures cost { total_cost items.new.items ≡ total_cost items.old.items }
{
    items[at..].rotate_left(1);
}

// What is held with an item of this length more, or that it passes 2^64 - 1.
fn sum_with(held: u64, len: usize) -> Option<u64>
    ensures sum { IfSome result (λ sum. sum ≡ held + (8 + len)) }
    ensures none { IsNone result ↔ (2 ^ 64 ≤ held + (8 + len)) }
{
    held.checked_add(8)?.checked_add(len as u64)
}

// How many of so many items stand below the top n.
fn below(depth: usize, n: u64) -> Result<usize, StackFault>
    ensures ok { IfOk result (λ left. left ≡ depth - n) }
    ensures underflow { IsErrOf result StackFault.Underflow ↔ (depth < n) }
    ensures fault { IsOkUnless result StackFault.Underflow }
{
    if (depth as u64) < n {
        return Err(StackFault::Underflow);
    }
    Ok(depth - n as usize)
}

//! One item, and what several cost.
ghost use Rattle.std.specs.Prelude.{◌≡◌, ◌<◌, ◌≤◌, ◌+◌, ◌^◌, length, take, drop};
ghost use Rattle.vm_num.specs.Item.{total_cost};

use std::marker::Model;

/// A string of bytes.
#[derive(Drop)]
pub struct Item {
    bytes: Vec<u8>,
}

impl Model for Item {
    ghost use Rattle.std.specs.Prelude.{List, ℕ};

    ghost Value = { List ℕ };

    ghost view = { λ item. item.bytes.items };
}

impl Item {
    /// The bytes of a vector.
    pub fn from_vec(bytes: Vec<u8>) -> Item
        ensures { result ≡ bytes.items }
    {
        Item { bytes }
    }

    /// The bytes, in order.
    pub fn as_slice(&self) -> &[u8]
        ensures { result.now ≡ self.now }
    {
        self.bytes.as_slice()
    }
}

/// What the items after the first so many cost.
#[tactic(auto, using(crate::proofs::Costs::costs))]
pub fn cost_behind(items: &[Item], first: usize) -> u64
    requires within { first ≤ length items.now }
    requires fits { total_cost items.now < 2 ^ 64 }
    ensures cost { result ≡ total_cost (drop first items.now) }
    ensures both { total_cost (take first items.now) + result ≡ total_cost items.now }
{
    cost_of(&items[first..])
}

// What the items cost.
fn cost_of(items: &[Item]) -> u64
    requires { total_cost items.now < 2 ^ 64 }
    ensures { result ≡ total_cost items.now }
{
    let mut total = 0u64;
    for item in items {
        total += 8 + item.as_slice().len() as u64;
    }
    total
}

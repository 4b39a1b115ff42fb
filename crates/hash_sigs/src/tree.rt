//! The tree over the leaves of a key (RFC 8554, section 5).
ghost use Rattle.std.specs.Prelude.{◌≡◌, ◌≤◌, ◌+◌, ◌*◌, length};
ghost use Rattle.hash_sigs.specs.Strings.{string_at};
ghost use Rattle.hash_sigs.specs.Tree.{leaf, interior, above, climbed};

use crate::strings::{Value, hashed, value_at};

const D_LEAF: u16 = 0x8282;

const D_INTR: u16 = 0x8383;

/// The value of a leaf, of its one-time public key.
pub fn leaf(id: &[u8], node: u32, key: &Value) -> Value
    ensures { result ≡ leaf id.now node key.now }
{
    hashed(id, node, D_LEAF, key, &[])
}

/// The value of a node, of the values of the two below it.
pub fn interior(id: &[u8], node: u32, left: &Value, right: &Value) -> Value
    ensures { result ≡ interior id.now node left.now right.now }
{
    hashed(id, node, D_INTR, left, right)
}

#[tactic(auto, unfolding(crate::specs::Tree::above))]
fn above(id: &[u8], node: u32, value: &Value, sibling: &Value) -> Value
    ensures { result ≡ above id.now node value.now sibling.now }
{
    if node % 2 == 1 {
        interior(id, node / 2, sibling, value)
    } else {
        interior(id, node / 2, value, sibling)
    }
}

/// The value so many levels above a node, by the siblings' values that stand in a signature from a place on.
pub fn climbed(
    id: &[u8],
    node: u32,
    value: Value,
    signature: &[u8],
    at: usize,
    height: usize,
) -> Value
    requires { at + 32 * height ≤ length signature.now }
    ensures { result ≡ climbed id.now node value (string_at signature.now at) height }
{
    let mut reached = value;
    let mut number = node;
    for level in 0..height {
        let sibling = value_at(signature, at + 32 * level);
        reached = above(id, number, &reached, &sibling);
        number /= 2;
    }
    reached
}

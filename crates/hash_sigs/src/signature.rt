//! How a signature is written.
ghost use Rattle.std.specs.Prelude.{◌≡◌, ◌+◌, ◌*◌, ◌^◌, ◌<◌, ◌++◌, IfOk, OnOk, IsTrue, length, slice_index};
ghost use Rattle.hash_sigs.specs.Strings.{joined};
ghost use Rattle.hash_sigs.specs.Key.{own_chain, own_path, node, sibling, public_key, signature};
ghost use Rattle.hash_sigs.specs.Nodes.{HasNodes};
ghost use Rattle.hash_sigs.specs.Signature.{lms};

use crate::check::ONE_TIME;
use crate::one_time::{CHAINS, digits, message_hash};
use crate::origin::Origin;
use crate::strings::{Value, u32str};
use keyed::NoMemory;
use std::alloc::Global;

/// The public key of a tree with this root.
pub fn public_key(alloc: Global, origin: &Origin, root: &Value) -> Result<Vec<u8>, NoMemory>
    requires { root.now ≡ node origin.now origin.now.height 1 }
    ensures { IfOk result (λ key. key.items ≡ public_key origin.now) }
{
    let mut key = Vec::with_capacity(alloc, 56)?;
    key.extend_from_slice(&u32str(origin.typecode()))?;
    key.extend_from_slice(&u32str(ONE_TIME))?;
    key.extend_from_slice(origin.id())?;
    key.extend_from_slice(root)?;
    Ok(key)
}

/// The signature of a message with a leaf. All memory is taken at the start.
pub fn signed(
    alloc: Global,
    origin: &Origin,
    nodes: &[Value],
    q: u32,
    message: &[u8],
) -> Result<Vec<u8>, NoMemory>
    requires leaf { q < 2 ^ origin.now.height }
    requires nodes { HasNodes origin.now nodes.now 1 }
    requires len { length nodes.now ≡ 2 ^ origin.now.height * 2 }
    ensures signature { IfOk result (λ bytes. bytes.items ≡ signature origin.now q message.now) }
    ensures good { IfOk result (λ bytes. IsTrue (lms (public_key origin.now) message.now bytes.items)) }
{
    let randomizer = origin.randomizer(q);
    let digits = digits(&message_hash(origin.id(), q, &randomizer, message));
    let mut bytes = Vec::with_capacity(alloc, 1132 + 32 * origin.height())?;
    bytes.extend_from_slice(&u32str(q))?;
    bytes.extend_from_slice(&u32str(ONE_TIME))?;
    bytes.extend_from_slice(&randomizer)?;
    append_chains(origin, q, &digits, &mut bytes)?;
    bytes.extend_from_slice(&u32str(origin.typecode()))?;
    append_path(origin, nodes, q, &mut bytes)?;
    Ok(bytes)
}

fn append_chains(
    origin: &Origin,
    q: u32,
    digits: &[u8; CHAINS],
    bytes: &mut Vec<u8>,
) -> Result<(), NoMemory>
    ensures { OnOk result (bytes.new.items
        ≡ bytes.old.items ++ joined (λ i. own_chain origin.now q i (slice_index digits.now i)) 34) }
{
    for i in 0..CHAINS {
        bytes.extend_from_slice(&origin.chained(q, i as u16, digits[i]))?;
    }
    Ok(())
}

fn append_path(
    origin: &Origin,
    nodes: &[Value],
    q: u32,
    bytes: &mut Vec<u8>,
) -> Result<(), NoMemory>
    requires leaf { q < 2 ^ origin.now.height }
    requires nodes { HasNodes origin.now nodes.now 1 }
    requires len { length nodes.now ≡ 2 ^ origin.now.height * 2 }
    ensures { OnOk result (bytes.new.items ≡ bytes.old.items ++ joined (own_path origin.now q) origin.now.height) }
{
    let mut node = origin.leaves() + q as usize;
    for level in 0..origin.height() {
        bytes.extend_from_slice(&nodes[sibling(node)])?;
        node /= 2;
    }
    Ok(())
}

fn sibling(node: usize) -> usize
    requires { node < 2 ^ 32 }
    ensures { result ≡ sibling node }
{
    if node % 2 == 1 { node - 1 } else { node + 1 }
}

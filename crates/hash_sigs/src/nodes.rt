//! The table of a key's tree: the values of nodes 1 to 2^(h + 1) - 1, each at its own place.
ghost use Rattle.std.specs.Prelude.{◌≡◌, ◌+◌, ◌*◌, ◌^◌, ◌≤◌, IfOk, length};
ghost use Rattle.hash_sigs.specs.Nodes.{HasNodes};

use crate::origin::Origin;
use crate::strings::Value;
use crate::tree::{interior, leaf};
use keyed::NoMemory;
use std::alloc::Global;

/// The table of a tree. Each leaf is made once.
pub fn nodes(alloc: Global, origin: &Origin) -> Result<Vec<Value>, NoMemory>
    ensures nodes { IfOk result (λ nodes. HasNodes origin.now nodes.items 1) }
    ensures len { IfOk result (λ nodes. length nodes.items ≡ 2 ^ origin.now.height * 2) }
{
    let leaves = origin.leaves();
    let mut nodes = Vec::from_elem(alloc, [0; 32], leaves * 2)?;
    set_leaves(origin, leaves, &mut nodes);
    set_others(origin, leaves, &mut nodes);
    Ok(nodes)
}

fn set_leaves(origin: &Origin, leaves: usize, nodes: &mut [Value])
    requires leaves { leaves ≡ 2 ^ origin.now.height }
    requires few { leaves ≤ 1024 }
    requires len { length nodes.old ≡ leaves * 2 }
    ensures { HasNodes origin.now nodes.new leaves }
{
    for q in 0..leaves {
        let node = (leaves + q) as u32;
        nodes[leaves + q] = leaf(origin.id(), node, &origin.one_time_key(q as u32));
    }
}

fn set_others(origin: &Origin, leaves: usize, nodes: &mut [Value])
    requires leaves { leaves ≡ 2 ^ origin.now.height }
    requires few { leaves ≤ 1024 }
    requires len { length nodes.old ≡ leaves * 2 }
    requires nodes { HasNodes origin.now nodes.old leaves }
    ensures { HasNodes origin.now nodes.new 1 }
{
    let mut first = leaves;
    while first > 1 {
        first -= 1;
        nodes[first] = interior(
            origin.id(),
            first as u32,
            &nodes[2 * first],
            &nodes[2 * first + 1],
        );
    }
}

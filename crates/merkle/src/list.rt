//! The root of a list of ids.
ghost use Rattle.std.specs.Prelude.{◌≡◌};
ghost use Rattle.merkle.specs.Roots.{list_root};

use crate::node::{leaf, node};
use keyed::IdHash;
use wire::Id;

/// The root of a list of ids, in order: of none the hash of nothing, of one the hash of the byte 00 and the id, of more
/// the hash of the byte 01 and the roots of two parts, the first of which has the greatest power of two below their
/// number. It takes no memory, and hashes once for each id and once for each pair of parts: of n ids, from one on,
/// 2n - 1 times.
pub fn list_root<H: IdHash>(hash: &H, ids: &[Id]) -> Id
    ensures { result ≡ list_root (H.hash_of hash.now) ids.now }
{
    if ids.is_empty() {
        return hash.hash(b"");
    }
    if ids.len() == 1 {
        return leaf(hash, &ids[0]);
    }
    let half = ids.len().next_power_of_two() / 2;
    let left = list_root(hash, &ids[..half]);
    let right = list_root(hash, &ids[half..]);
    node(hash, &left, &right)
}

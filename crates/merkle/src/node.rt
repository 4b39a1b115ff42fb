//! What is hashed to a root: a byte that sets one id apart from two parts, and then these.
ghost use Rattle.std.specs.Prelude.{◌≡◌};
ghost use Rattle.merkle.specs.Roots.{leaf, node};

use keyed::IdHash;
use wire::{Id, copy_at};

// The root of one id.
pub(crate) fn leaf<H: IdHash>(hash: &H, id: &Id) -> Id
    ensures { result ≡ leaf (H.hash_of hash.now) id.now }
{
    let mut text = [0; 33];
    text[1..].copy_from_slice(id);
    hash.hash(&text)
}

// The root of two parts that have these roots.
pub(crate) fn node<H: IdHash>(hash: &H, left: &Id, right: &Id) -> Id
    ensures { result ≡ node (H.hash_of hash.now) left.now right.now }
{
    let mut text = [1; 65];
    let at = copy_at(&mut text, 1, left);
    let at = copy_at(&mut text, at, right);
    hash.hash(&text[..at])
}

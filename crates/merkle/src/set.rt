//! The root of a set of ids.
ghost use Rattle.std.specs.Prelude.{◌≡◌, ◌<◌, ◌≤◌, ◌+◌, ◌-◌, ◌/◌, length, slice_index};
ghost use Rattle.std.specs.List.{All};
ghost use Rattle.merkle.specs.Agreeing.{AllSameUpTo};
ghost use Rattle.merkle.specs.Roots.{has_bit, IsIncreasing, root_of_bits, set_root, without};

use crate::node::{leaf, node};
use keyed::IdHash;
use wire::Id;

/// The root of a set of ids, which are given in strictly increasing order of their bytes: of none the hash of nothing,
/// of one the hash of the byte 00 and the id, of more the hash of the byte 01 and the roots of two parts, those without
/// and those with the first bit in which members differ. Bits count from the high bit of the first byte. It takes no
/// memory, and hashes once for each id and once for each pair of parts: of n ids, from one on, 2n - 1 times.
pub fn set_root<H: IdHash>(hash: &H, ids: &[Id]) -> Id
    requires { IsIncreasing ids.now }
    ensures { result ≡ set_root (H.hash_of hash.now) ids.now }
{
    if ids.is_empty() {
        return hash.hash(b"");
    }
    root_from(hash, ids, 0)
}

// The root of some ids that are the same up to a bit.
fn root_from<H: IdHash>(hash: &H, ids: &[Id], place: usize) -> Id
    requires sorted { IsIncreasing ids.now }
    requires same { AllSameUpTo place ids.now }
    requires some { 0 < length ids.now }
    requires place { place ≤ 256 }
    ensures { result ≡ root_of_bits (H.hash_of hash.now) (256 - place) ids.now }
{
    if ids.len() == 1 {
        return leaf(hash, &ids[0]);
    }
    let count = count_without(ids, place);
    if count == 0 || count == ids.len() {
        return root_from(hash, ids, place + 1);
    }
    let left = root_from(hash, &ids[..count], place + 1);
    let right = root_from(hash, &ids[count..], place + 1);
    node(hash, &left, &right)
}

// How many of the ids are without a bit. All of them are read at its byte.
fn count_without(ids: &[Id], place: usize) -> usize
    requires { place < 256 }
    ensures count { result ≡ length (without place ids.now) }
    ensures within { result ≤ length ids.now }
    ensures bytes { All (λ id. slice_index id (place / 8) < 256) ids.now }
{
    let mut count = 0;
    for id in ids {
        if !has_bit(id, place) {
            count += 1;
        }
    }
    count
}

// Whether an id has a bit.
#[tactic(auto, unfolding(crate::specs::Roots::has_bit))]
fn has_bit(id: &Id, place: usize) -> bool
    requires { place < 256 }
    ensures bit { result ≡ has_bit place id.now }
    ensures byte { slice_index id.now (place / 8) < 256 }
{
    (id[place / 8] >> (7 - place % 8)) & 1 == 1
}

//! Laws of roots, each the contract of a function with nothing to do.
ghost use Rattle.keyed.specs.Functions.{Hash};
ghost use Rattle.merkle.specs.Laws.{ListRoots, SetRoots};

/// What the root of a list of ids is, by how many they are.
pub fn list_roots()
    ensures { (hash : Hash) → ListRoots hash }
{}

/// What the root of a set of ids is, by the first bit in which members differ; and that it is the same however the
/// members are listed.
pub fn set_roots()
    ensures { (hash : Hash) → SetRoots hash }
{}

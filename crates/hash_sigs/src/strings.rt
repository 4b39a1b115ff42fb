//! What is hashed: each string begins with I, a number in four bytes and a number in two (RFC 8554, section 7.1).
ghost use Rattle.std.specs.Prelude.{◌≡◌, ◌++◌, length, ◌≤◌, ◌+◌, slice_range};
ghost use Rattle.sha2.specs.Hashers.{Holds256};
ghost use Rattle.sha2.specs.Sha256.{sha256};
ghost use Rattle.hash_sigs.specs.Strings.{u32str, u16str};

use sha2::{Digest, Sha256};

/// A hash, or another value of a chain or a tree.
pub type Value = [u8; 32];

#[tactic(auto, unfolding(crate::specs::Strings::u32str))]
pub fn u32str(n: u32) -> [u8; 4]
    ensures { result ≡ u32str n }
{
    n.to_be_bytes()
}

#[tactic(auto, unfolding(crate::specs::Strings::u16str))]
pub fn u16str(n: u16) -> [u8; 2]
    ensures { result ≡ u16str n }
{
    n.to_be_bytes()
}

/// A hasher of a string's first 22 bytes.
pub fn prefix_hasher(id: &[u8], number: u32, tag: u16) -> Sha256
    ensures { Holds256 result (id.now ++ u32str number ++ u16str tag) }
{
    let mut hasher = Sha256::new();
    hasher.update(id);
    hasher.update(u32str(number));
    hasher.update(u16str(tag));
    hasher
}

/// The hash of a string that goes on with these two.
pub fn hashed(id: &[u8], number: u32, tag: u16, first: &[u8], second: &[u8]) -> Value
    ensures { result ≡ sha256 (id.now ++ u32str number ++ u16str tag ++ first.now ++ second.now) }
{
    let mut hasher = prefix_hasher(id, number, tag);
    hasher.update(first);
    hasher.update(second);
    hasher.finalize()
}

/// The value at a place.
pub fn value_at(bytes: &[u8], at: usize) -> Value
    requires { at + 32 ≤ length bytes.now }
    ensures { result ≡ slice_range bytes.now at (at + 32) }
{
    let mut value = [0; 32];
    value.copy_from_slice(&bytes[at..at + 32]);
    value
}

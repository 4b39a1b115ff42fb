//! The hash that ids are made with, as a function of bytes.
ghost use Rattle.std.specs.Prelude.{◌≡◌, ◌<◌, ℕ, List, length, slice_index};
ghost use Rattle.sha2.specs.Sha256.{sha256};
ghost use Rattle.keyed.specs.Digests.{digest_length, digest_bytes_fit};

use sha2::{Digest, Sha256};

/// A hash that ids are made with. It takes no memory.
pub trait IdHash {
    /// The hash as a function of bytes.
    ghost hash_of: { Self → List ℕ → List ℕ };

    /// The hash of the bytes.
    fn hash(&self, bytes: &[u8]) -> [u8; 32]
        ensures { result ≡ hash_of self.now bytes.now };

    /// Each hash has 32 bytes.
    ghost hash_length: { (hash : Self) (bytes : List ℕ) → length (hash_of hash bytes) ≡ 32 };

    /// Each part of a hash is a byte.
    ghost hash_bytes: { (hash : Self) (bytes : List ℕ) (i : ℕ) → slice_index (hash_of hash bytes) i < 256 };
}

/// SHA-256 (FIPS 180-4).
#[derive(Clone, Copy, Debug)]
pub struct Sha256Id;

impl IdHash for Sha256Id {
    ghost hash_of = { λ _ bytes. sha256 bytes };

    fn hash(&self, bytes: &[u8]) -> [u8; 32] {
        Sha256::digest(bytes)
    }

    ghost hash_length = { λ _ bytes. digest_length bytes };

    ghost hash_bytes = { λ _ bytes i. digest_bytes_fit bytes i };
}

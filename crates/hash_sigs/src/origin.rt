//! What a key is made of, and what comes from it for each leaf.
ghost use Rattle.std.specs.Prelude.{◌≡◌, ◌^◌, ◌≤◌, ◌++◌, length};
ghost use Rattle.hash_sigs.specs.Key.{IsHeight, typecode, private_element, own_randomizer, own_chain, own_one_time_key};

use crate::one_time::{CHAINS, D_PBLC, STEPS, chained};
use crate::strings::{Value, hashed, prefix_hasher};
use sha2::Digest;
use std::marker::Model;

// The tag of a randomizer. The standard leaves the choice of randomizers open; no chain has this number.
const RANDOMIZER: u16 = 65533;

/// The seed, the identifier I and the height of a key's tree.
#[derive(Drop)]
pub struct Origin {
    seed: [u8; 32],
    id: [u8; 16],
    height: u8,
}

impl Model for Origin {
    ghost use Rattle.std.specs.Prelude.{◌≡◌, length};
    ghost use Rattle.hash_sigs.specs.Key.{IsHeight};
    ghost use Rattle.hash_sigs.specs.Key as keys;

    ghost Value = { keys.Origin };

    ghost view = { λ o. record { seed = o.seed; id = o.id; height = o.height } };

    ghost invariant = { λ o. IsHeight o.height × (length o.id ≡ 16) };
}

impl Origin {
    pub fn new(seed: &[u8; 32], id: &[u8; 16], height: u8) -> Origin
        requires { IsHeight height }
        ensures { result ≡ record { seed = seed.now; id = id.now; height = height } }
    {
        Origin {
            seed: *seed,
            id: *id,
            height,
        }
    }

    pub fn id(&self) -> &[u8]
        ensures value { result.now ≡ self.now.id }
        ensures len { length result.now ≡ 16 }
    {
        &self.id
    }

    pub fn height(&self) -> usize
        ensures value { result ≡ self.now.height }
        ensures height { IsHeight result }
    {
        self.height as usize
    }

    /// How many leaves the tree has.
    pub fn leaves(&self) -> usize
        ensures value { result ≡ 2 ^ self.now.height }
        ensures few { result ≤ 1024 }
    {
        1 << self.height
    }

    /// The number of the tree's type.
    pub fn typecode(&self) -> u32
        ensures { result ≡ typecode self.now.height }
    {
        if self.height == 5 { 5 } else { 6 }
    }

    fn element(&self, q: u32, i: u16) -> Value
        ensures { result ≡ private_element self.now q i }
    {
        hashed(&self.id, q, i, &[255], &self.seed)
    }

    /// The randomizer of a leaf's signature.
    pub fn randomizer(&self, q: u32) -> Value
        ensures { result ≡ own_randomizer self.now q }
    {
        hashed(&self.id, q, RANDOMIZER, &[255], &self.seed)
    }

    /// The value of a leaf's chain after so many steps.
    pub fn chained(&self, q: u32, i: u16, steps: u8) -> Value
        ensures { result ≡ own_chain self.now q i steps }
    {
        chained(&self.id, q, i, 0, steps, self.element(q, i))
    }

    /// The one-time public key of a leaf.
    pub fn one_time_key(&self, q: u32) -> Value
        ensures { result ≡ own_one_time_key self.now q }
    {
        let mut hasher = prefix_hasher(self.id(), q, D_PBLC);
        for i in 0..CHAINS {
            hasher.update(self.chained(q, i as u16, STEPS));
        }
        hasher.finalize()
    }
}

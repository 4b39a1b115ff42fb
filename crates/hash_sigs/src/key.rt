//! Keys that give LMS signatures (RFC 8554), each leaf for one message.
ghost use Rattle.std.specs.Prelude.{◌≡◌, ◌+◌, ◌-◌, ◌^◌, ◌≤◌, ◌↔◌, Err, IsTrue, IfOk, OnOk, OnErr};
ghost use Rattle.hash_sigs.specs.Key.{IsHeight, public_key, signature};
ghost use Rattle.hash_sigs.specs.Signature.{lms};

use crate::nodes::nodes;
use crate::origin::Origin;
use crate::signature::{public_key, signed};
use crate::strings::Value;
use keyed::{NoMemory, SignFault, SignKey};
use std::alloc::Global;
use std::marker::Model;

/// A key of LMS signatures (RFC 8554) of the type LMS_SHA256_M32_H5 or LMS_SHA256_M32_H10 over LMOTS_SHA256_N32_W8. Its
/// private elements come from a seed, as in Appendix A of the standard, and its leaves are used from 0 up, one for each
/// signature. It keeps the values of its whole tree: 2 KB for height 5, 64 KB for height 10.
#[derive(Drop)]
pub struct LmsKey {
    origin: Origin,
    used: u64,
    public: Vec<u8>,
    nodes: Vec<Value>,
    alloc: Global,
}

impl Model for LmsKey {
    ghost use Rattle.std.specs.Prelude.{◌≡◌, ◌*◌, ◌^◌, ◌≤◌, length};
    ghost use Rattle.hash_sigs.specs.Key.{Key, public_key};
    ghost use Rattle.hash_sigs.specs.Nodes.{HasNodes};

    ghost Value = { Key };

    ghost view = { λ key. record { origin = key.origin; used = key.used } };

    ghost invariant = { λ key. record {
      used : key.used ≤ 2 ^ key.origin.height;
      public : key.public.items ≡ public_key key.origin;
      nodes : HasNodes key.origin key.nodes.items 1;
      len : length key.nodes.items ≡ 2 ^ key.origin.height * 2;
    } };
}

impl LmsKey {
    /// The key of a seed, an identifier I and a height, with no leaf used. No two keys are to have one seed and one
    /// identifier, so that no leaf signs twice.
    pub fn new(
        alloc: Global,
        seed: &[u8; 32],
        id: &[u8; 16],
        height: u8,
    ) -> Result<LmsKey, NoMemory>
        requires { IsHeight height }
        ensures origin { IfOk result
            (λ key. key.origin ≡ record { seed = seed.now; id = id.now; height = height }) }
        ensures used { IfOk result (λ key. key.used ≡ 0) }
    {
        LmsKey::resume(alloc, seed, id, height, 0)
    }

    /// The same key after so many signatures.
    pub fn resume(
        alloc: Global,
        seed: &[u8; 32],
        id: &[u8; 16],
        height: u8,
        used: u64,
    ) -> Result<LmsKey, NoMemory>
        requires height { IsHeight height }
        requires used { used ≤ 2 ^ height }
        ensures origin { IfOk result
            (λ key. key.origin ≡ record { seed = seed.now; id = id.now; height = height }) }
        ensures used { IfOk result (λ key. key.used ≡ used) }
    {
        let origin = Origin::new(seed, id, height);
        let nodes = nodes(alloc, &origin)?;
        let public = public_key(alloc, &origin, &nodes[1])?;
        Ok(LmsKey {
            origin,
            used,
            public,
            nodes,
            alloc,
        })
    }

    /// How many leaves were used.
    pub fn used(&self) -> u64
        ensures { result ≡ self.now.used }
    {
        self.used
    }
}

impl SignKey for LmsKey {
    ghost public_of = { λ key. public_key key.origin };

    ghost left_of = { λ key. 2 ^ key.origin.height - key.used };

    ghost signature_of = { λ key k message. signature key.origin (key.used + k) message };

    ghost own_check = { λ _ key message signature. lms key message signature };

    fn public(&self) -> &[u8] {
        self.public.as_slice()
    }

    fn left(&self) -> u64 {
        self.origin.leaves() as u64 - self.used
    }

    /// The signature with the next leaf (RFC 8554, sections 4.5 and 5.4.1): 1,292 bytes for height 5, 1,452 for height
    /// 10. All memory is taken before the leaf is counted.
    fn sign(&mut self, msg: &[u8]) -> Result<Vec<u8>, SignFault>
        ensures signature { IfOk result
            (λ bytes. bytes.items ≡ signature self.old.origin self.old.used msg.now) }
        ensures good { IfOk result (λ bytes. IsTrue (lms (public_key self.old.origin) msg.now bytes.items)) }
        ensures counted { OnOk result (self.new ≡ record self.old { used = self.old.used + 1 }) }
        ensures left { OnOk result
            (2 ^ self.new.origin.height - self.new.used + 1 ≡ 2 ^ self.old.origin.height - self.old.used) }
        ensures spent { (result ≡ Err SignFault.Spent) ↔ (2 ^ self.old.origin.height - self.old.used ≡ 0) }
        ensures unchanged { OnErr result (self.new ≡ self.old) }
    {
        if self.used == self.origin.leaves() as u64 {
            return Err(SignFault::Spent);
        }
        let signature = signed(self.alloc, &self.origin, &self.nodes, self.used as u32, msg)?;
        self.used += 1;
        Ok(signature)
    }
}

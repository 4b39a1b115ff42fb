//! Keys that sign.
ghost use Rattle.std.specs.Prelude.{◌≡◌, ◌+◌, ◌<◌, ◌↔◌, ℕ, List, Bool, Err, IsTrue, IfOk, OnOk, OnErr};

use crate::NoMemory;
use std::alloc::AllocFailed;

/// Why a key gave no signature.
#[derive(Clone, Copy, Debug, PartialEq, Eq)]
pub enum SignFault {
    /// The key has no signature left.
    Spent,
    /// Out of memory.
    NoMemory,
}

impl From<NoMemory> for SignFault {
    ghost use Rattle.keyed.specs.declared.signing.SignFault.TheVariants as faults;

    ghost from_gives = { λ _ e. e ≡ faults.NoMemory };

    fn from(_: NoMemory) -> SignFault {
        SignFault::NoMemory
    }
}

impl<T: Drop> From<AllocFailed<T>> for SignFault {
    ghost use Rattle.keyed.specs.declared.signing.SignFault.TheVariants as faults;

    ghost from_gives = { λ _ e. e ≡ faults.NoMemory };

    fn from(_: AllocFailed<T>) -> SignFault {
        SignFault::NoMemory
    }
}

/// A key that signs a number of messages and no more.
pub trait SignKey {
    /// The public key.
    ghost public_of: { Self → List ℕ };

    /// How many signatures are left.
    ghost left_of: { Self → ℕ };

    /// The signature that the key gives for a message after so many further ones. It means nothing where at most so
    /// many are left.
    ghost signature_of: { Self → ℕ → List ℕ → List ℕ };

    /// The key's own check: whether a signature is good, as a function of the public key, the message and the
    /// signature.
    ghost own_check: { Self → List ℕ → List ℕ → List ℕ → Bool };

    /// The public key, under which the key's signatures are good.
    fn public(&self) -> &[u8]
        ensures { result.now ≡ public_of self.now };

    /// How many signatures are left.
    fn left(&self) -> u64
        ensures { result ≡ left_of self.now };

    /// The next signature, of this message. `Spent` comes exactly where none is left. After a refusal, out of memory
    /// included, the key is as it was.
    fn sign(&mut self, msg: &[u8]) -> Result<Vec<u8>, SignFault>
        ensures signature { IfOk result (λ signature. signature.items ≡ signature_of self.old 0 msg.now) }
        ensures good { IfOk result
            (λ signature. IsTrue (own_check self.old (public_of self.old) msg.now signature.items)) }
        ensures next { OnOk result ((k : ℕ) (message : List ℕ) → k < left_of self.new
            → signature_of self.new k message ≡ signature_of self.old (k + 1) message) }
        ensures left { OnOk result (left_of self.new + 1 ≡ left_of self.old) }
        ensures public { public_of self.new ≡ public_of self.old }
        ensures check { own_check self.new ≡ own_check self.old }
        ensures spent { (result ≡ Err SignFault.Spent) ↔ (left_of self.old ≡ 0) }
        ensures unchanged { OnErr result (self.new ≡ self.old) };
}

//! The check of signatures, as a function of the key, the message and the signature.
ghost use Rattle.std.specs.Prelude.{◌≡◌, ℕ, List, Bool, false};

/// A check of signatures. It takes no memory.
pub trait SigCheck {
    /// Whether a signature is good, as a function of the key, the message and the signature.
    ghost good_of: { Self → List ℕ → List ℕ → List ℕ → Bool };

    /// The signature is good for this key and this message.
    fn good(&self, key: &[u8], msg: &[u8], sig: &[u8]) -> bool
        ensures { result ≡ good_of self.now key.now msg.now sig.now };
}

/// The check under which no signature is ever good.
#[derive(Clone, Copy, Debug)]
pub struct NoSigs;

impl SigCheck for NoSigs {
    ghost good_of = { λ _ _ _ _. false };

    fn good(&self, _key: &[u8], _msg: &[u8], _sig: &[u8]) -> bool {
        false
    }
}

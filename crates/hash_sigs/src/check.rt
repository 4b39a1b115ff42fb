//! The check of LMS signatures (RFC 8554).
ghost use Rattle.std.specs.Prelude.{◌≡◌, ◌≤◌, ◌<◌, ◌+◌, ◌*◌, ◌^◌, ◌↔◌, IsTrue, length, slice_range};
ghost use Rattle.hash_sigs.specs.Signature.{leaf_number, key_candidate, root_candidate, is_key, is_signature};
ghost use Rattle.hash_sigs.specs.Signature.{lms_of, lms};

use crate::one_time::{candidate, digits, message_hash};
use crate::strings::{Value, u32str};
use crate::tree::{climbed, leaf};
use keyed::SigCheck;

/// The number of the type LMOTS_SHA256_N32_W8.
pub const ONE_TIME: u32 = 4;

/// The check of LMS signatures (RFC 8554, section 5.4.2) of the types LMS_SHA256_M32_H5 and LMS_SHA256_M32_H10 over
/// LMOTS_SHA256_N32_W8. A key has 56 bytes, a signature 1,292 or 1,452; no other key and no other signature is good.
#[derive(Clone, Copy, Debug)]
pub struct LmsCheck;

impl SigCheck for LmsCheck {
    ghost good_of = { λ _ key msg sig. lms key msg sig };

    #[tactic(auto, unfolding(crate::specs::Signature::lms))]
    fn good(&self, key: &[u8], msg: &[u8], sig: &[u8]) -> bool {
        is_good(5, 5, key, msg, sig) || is_good(6, 10, key, msg, sig)
    }
}

#[tactic(auto, unfolding(crate::specs::Signature::lms_of))]
fn is_good(typecode: u32, height: usize, key: &[u8], message: &[u8], signature: &[u8]) -> bool
    requires { height ≤ 10 }
    ensures { result ≡ lms_of typecode height key.now message.now signature.now }
{
    is_key(typecode, key)
        && is_signature(typecode, height, signature)
        && root(height, &key[8..24], message, signature).as_slice() == &key[24..56]
}

fn is_key(typecode: u32, key: &[u8]) -> bool
    ensures { result ≡ is_key typecode key.now }
{
    key.len() == 56
        && &key[..4] == u32str(typecode).as_slice()
        && &key[4..8] == u32str(ONE_TIME).as_slice()
}

fn is_signature(typecode: u32, height: usize, signature: &[u8]) -> bool
    requires { height ≤ 10 }
    ensures { result ≡ is_signature typecode height signature.now }
{
    signature.len() == 1132 + 32 * height
        && &signature[4..8] == u32str(ONE_TIME).as_slice()
        && &signature[1128..1132] == u32str(typecode).as_slice()
        && leaf_number(signature) < 1 << height
}

#[tactic(auto, unfolding(crate::specs::Signature::leaf_number))]
fn leaf_number(signature: &[u8]) -> u32
    requires { 4 ≤ length signature.now }
    ensures { result ≡ leaf_number signature.now }
{
    let mut number = [0; 4];
    number.copy_from_slice(&signature[..4]);
    u32::from_be_bytes(number)
}

#[tactic(auto, unfolding(crate::specs::Signature::key_candidate))]
fn one_time_key(id: &[u8], message: &[u8], signature: &[u8]) -> Value
    requires { 1132 ≤ length signature.now }
    ensures { result ≡ key_candidate id.now message.now signature.now }
{
    let q = leaf_number(signature);
    let hash = message_hash(id, q, &signature[8..40], message);
    candidate(id, q, &digits(&hash), signature, 40)
}

// The root of the tree that a signature comes to.
#[tactic(auto, unfolding(crate::specs::Signature::root_candidate))]
fn root(height: usize, id: &[u8], message: &[u8], signature: &[u8]) -> Value
    requires low { height ≤ 10 }
    requires len { length signature.now ≡ 1132 + 32 * height }
    requires leaf { leaf_number signature.now < 2 ^ height }
    ensures { result ≡ root_candidate height id.now message.now signature.now }
{
    let node = (1 << height) + leaf_number(signature);
    let key = one_time_key(id, message, signature);
    climbed(id, node, leaf(id, node, &key), signature, 1132, height)
}

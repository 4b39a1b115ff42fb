//! One-time signatures LM-OTS (RFC 8554, section 4).
ghost use Rattle.std.specs.Prelude.{◌≡◌, ◌≤◌, ◌+◌, ◌-◌, length};
ghost use Rattle.hash_sigs.specs.Strings.{string_at};
ghost use Rattle.hash_sigs.specs.OneTime.{chain, checksum, digits, candidate, message_hash};

use crate::strings::{Value, hashed, prefix_hasher, u16str, value_at};
use sha2::Digest;

/// How many chains a one-time key has.
pub const CHAINS: usize = 34;

/// The last value of each chain has this many steps after it.
pub const STEPS: u8 = 255;

/// The tag of a one-time public key.
pub const D_PBLC: u16 = 0x8080;

const D_MESG: u16 = 0x8181;

/// The value of chain i after its steps from one to before another.
pub fn chained(id: &[u8], q: u32, i: u16, from: u8, to: u8, value: Value) -> Value
    requires { from ≤ to }
    ensures { result ≡ chain id.now q i from (to - from) value }
{
    let mut reached = value;
    for j in from..to {
        reached = hashed(id, q, i, &[j], &reached);
    }
    reached
}

/// The hash Q of a message.
pub fn message_hash(id: &[u8], q: u32, randomizer: &[u8], message: &[u8]) -> Value
    ensures { result ≡ message_hash id.now q randomizer.now message.now }
{
    hashed(id, q, D_MESG, randomizer, message)
}

fn checksum(hash: &Value) -> u16
    ensures { result ≡ checksum hash.now }
{
    let mut sum: u16 = 0;
    for x in hash {
        sum += 255 - u16::from(*x);
    }
    sum
}

/// The number of steps that each chain has taken in a signature of this hash.
#[tactic(auto, unfolding(crate::specs::OneTime::digits))]
pub fn digits(hash: &Value) -> [u8; CHAINS]
    ensures { result ≡ digits hash.now }
{
    let mut digits = [0; CHAINS];
    digits[..32].copy_from_slice(hash);
    digits[32..].copy_from_slice(&u16str(checksum(hash)));
    digits
}

/// The public key that a signature's values, one for each chain, come to.
pub fn candidate(id: &[u8], q: u32, digits: &[u8; CHAINS], signature: &[u8], at: usize) -> Value
    requires { at + 1088 ≤ length signature.now }
    ensures { result ≡ candidate id.now q digits.now (string_at signature.now at) }
{
    let mut hasher = prefix_hasher(id, q, D_PBLC);
    for i in 0..CHAINS {
        let value = value_at(signature, at + 32 * i);
        let end = chained(id, q, i as u16, digits[i], STEPS, value);
        hasher.update(end);
    }
    hasher.finalize()
}

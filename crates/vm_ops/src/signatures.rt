//! Signatures of one message by some of several keys.
ghost use Rattle.std.specs.Prelude.{◌≡◌, ◌<◌, ◌≤◌, ◌+◌, ◌^◌, ◌↔◌, [], length, slice_index_or, IsTrue};
ghost use Rattle.vm_ops.specs.Signatures.{MultiGood, is_multi_good, keys_in, message_in, signatures_in};

use keyed::{Pile, SigCheck};

/// Whether m signatures of a message are good for some of n keys, in the order of the keys (Chain VM 1, CHECKMULTISIG).
/// From the top of the pile down stand the keys, the message and the signatures; keys and signatures are read from the
/// bottom up. Each key serves one signature at most.
pub fn multi_good<C: SigCheck, P: Pile>(sigs: &C, pile: &P, m: u64, n: u64) -> bool
    requires counts { m ≤ n }
    requires there { n + 1 + m ≤ length (P.items_of pile.now) }
    requires places { n + 1 + m < 2 ^ 64 }
    ensures places { IsTrue result ↔ MultiGood (C.good_of sigs.now) (keys_in n (P.items_of pile.now))
        (message_in n (P.items_of pile.now)) (signatures_in m n (P.items_of pile.now)) }
    ensures value { result ≡ is_multi_good (C.good_of sigs.now) (keys_in n (P.items_of pile.now))
        (message_in n (P.items_of pile.now)) (signatures_in m n (P.items_of pile.now)) }
{
    // Each signature is given the first key that is good for it, after the key of the signature before.
    let mut found = 0;
    for k in 0..n {
        if found == m {
            return true;
        }
        if is_good(sigs, pile, n - 1 - k, n, n + m - found) {
            found += 1;
        }
    }
    found == m
}

// Whether the signature at a place below the top is good for the key and the message at theirs.
fn is_good<C: SigCheck, P: Pile>(sigs: &C, pile: &P, key: u64, msg: u64, sig: u64) -> bool
    requires key { key < length (P.items_of pile.now) }
    requires msg { msg < length (P.items_of pile.now) }
    requires sig { sig < length (P.items_of pile.now) }
    ensures { result ≡ C.good_of sigs.now (slice_index_or (P.items_of pile.now) key [])
        (slice_index_or (P.items_of pile.now) msg []) (slice_index_or (P.items_of pile.now) sig []) }
{
    match (pile.item(key), pile.item(msg), pile.item(sig)) {
        (Some(key), Some(msg), Some(sig)) => sigs.good(key, msg, sig),
        _ => false,
    }
}

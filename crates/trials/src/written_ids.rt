//! Ids against the layouts written out.
ghost use Rattle.std.specs.Prelude.{◌≡◌};
ghost use Rattle.trials.specs.Written.{folded, written_byte, written_hash, written-length, written-fits};

use crate::transaction_ids::{asset_and_nonce_in, each_in, ids_in, issued};
use keyed::IdHash;
use wire::Id;

// The hash that has 32 bytes 17 for the first of two strings and 32 bytes 34 for the second. For every other string it
// has 32 times one byte: from 1 on, five times what came before and the next byte, modulo 251.
#[derive(Clone, Copy)]
struct Written<'a> {
    first: &'a [u8],
    second: &'a [u8],
}

impl Written<'_> {
    // The byte of a string's hash.
    fn byte(&self, bytes: &[u8]) -> u8
        ensures { result ≡ written_byte self.now.first.now self.now.second.now bytes.now }
    {
        if bytes == self.first {
            17
        } else if bytes == self.second {
            34
        } else {
            folded(bytes)
        }
    }
}

fn folded(bytes: &[u8]) -> u8
    ensures { result ≡ folded bytes.now }
{
    bytes
        .iter()
        .fold(1u8, |n, byte| ((n as u32 * 5 + *byte as u32) % 251) as u8)
}

impl IdHash for Written<'_> {
    ghost hash_of = { λ hash bytes. written_hash hash.first.now hash.second.now bytes };

    fn hash(&self, bytes: &[u8]) -> [u8; 32] {
        [self.byte(bytes); 32]
    }

    ghost hash_length = { λ hash bytes. written-length hash.first.now hash.second.now bytes };

    ghost hash_bytes = { λ hash bytes i. written-fits hash.first.now hash.second.now bytes i };
}

// What is hashed for the nonce's id: its body, with the asset that the program 51 and an empty definition have on a
// chain whose initial block has an id of zeros; and the text with that body's hash.
const NONCE_BODY: &[u8; 36] = b"\x01\x01vvvvvvvvvvvvvvvvvvvvvvvvvvvvvvvv\0\x05";

const NONCE_ENTRY: &[u8; 46] =
    b"entryid:nonce:\x11\x11\x11\x11\x11\x11\x11\x11\x11\x11\x11\x11\x11\x11\x11\x11\x11\x11\x11\x11\
    \x11\x11\x11\x11\x11\x11\x11\x11\x11\x11\x11\x11";

// An issuance of 100 units with the nonce 01, to an output under the program 51, until time 5; and a spend of that
// output to one of 60 units, with a retirement of 40.
const ISSUES: &[u8; 84] =
    b"\x01\0\x05\0\x01\0\x01\x01vvvvvvvvvvvvvvvvvvvvvvvvvvvvvvvv\x64\x01\x51\0\0\0\x01\0\
    vvvvvvvvvvvvvvvvvvvvvvvvvvvvvvvv\x64\x01\x51\0";

const SPENDS: &[u8; 181] =
    b"\x01\0\0\0\x01\x01UUUUUUUUUUUUUUUUUUUUUUUUUUUUUUUU\0vvvvvvvvvvvvvvvvvvvvvvvvvvvvvvvv\x64\x01\x51\
    \x01\x01\x01\x01\x01\x01\x01\x01\x01\x01\x01\x01\x01\x01\x01\x01\x01\x01\x01\x01\x01\x01\x01\x01\
    \x01\x01\x01\x01\x01\x01\x01\x01\0\0\x02\0vvvvvvvvvvvvvvvvvvvvvvvvvvvvvvvv\x3c\x01\x51\0\x01vvvv\
    vvvvvvvvvvvvvvvvvvvvvvvvvvvv\x28\0";

// Made by another program, in Python, from the bodies written out by hand: the ids of the mux, the first input, the
// first result and the transaction, and what signatures of that input sign.
const OF_ISSUES: [Id; 5] = [[85; 32], [194; 32], [28; 32], [23; 32], [26; 32]];

const OF_SPENDS: [Id; 5] = [[11; 32], [185; 32], [243; 32], [91; 32], [57; 32]];

const HASH: Written<'static> = Written {
    first: NONCE_BODY,
    second: NONCE_ENTRY,
};

#[test]
fn ids_over_a_hash_that_is_written_out(rt: HostRuntime) {
    let [mux, input, _, tx, _] = OF_SPENDS;
    assert!(rt; asset_and_nonce_in(rt.alloc(), &HASH, ISSUES) == Some(([118; 32], Some([34; 32]))));
    assert!(rt; ids_in(rt.alloc(), &HASH, ISSUES) == Some(OF_ISSUES));
    assert!(rt; ids_in(rt.alloc(), &HASH, SPENDS) == Some(OF_SPENDS));
    assert!(rt; each_in(rt.alloc(), &HASH, SPENDS, 1) == Some([mux, input, [12; 32], tx]));
    assert!(rt; issued(rt.alloc(), &HASH, [85; 32], [118; 32], [1; 32]) == Ok([28; 32]));
}

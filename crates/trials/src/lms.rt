//! LMS keys and signatures.
// Roots and signatures are those of a program in Python that was written from the layouts of the standard alone.
use hash_sigs::{LmsCheck, LmsKey};
use keyed::{IdHash, Sha256Id, SigCheck, SignFault, SignKey};
use std::alloc::Global;
use std::test::Fail;

const SEED: &[u8; 32] = b"0123456789abcdef0123456789abcdef";

const ID: &[u8; 16] = b"identifier of 16";

// Of height 5: the root, and the SHA-256 of the signatures of two messages with two leaves.
const ROOT_OF_FIVE: &[u8; 32] = b"\xdd\xdd\x8b\x0e\x81\x11\xd2\xdb\xc3\x17\x75\x7d\xf0\x33\xde\xb1\
    \x2a\x44\x20\x04\xac\x8c\x2f\xcd\xfb\xd4\x63\xd7\xf2\xcd\xfc\x64";

const FIRST_OF_FIVE: &[u8; 32] = b"\xfb\x91\xd5\xb2\x91\x5c\xc8\x8d\xdc\xb4\x75\xd9\x84\xc4\xcf\x7c\
    \x8a\xc6\x7a\xb0\x01\x2d\x56\x8b\xf8\xca\x03\xa8\x21\xdc\xb1\x2d";

const LAST_OF_FIVE: &[u8; 32] = b"\xf3\xc4\x17\x40\xb7\xd5\x3b\xc3\x56\x00\x14\xca\x68\x9b\x4c\x74\
    \xb4\x25\x02\x3c\x97\xec\xe3\xc9\x67\x4b\x35\x65\x60\xc2\xd2\x93";

// Of height 10: the root, and the SHA-256 of the signatures of two messages with two leaves.
const ROOT_OF_TEN: &[u8; 32] = b"\xae\xde\xd3\xa7\x77\x37\xbf\xb9\x15\x9c\xc8\x1f\xfe\x55\x8f\x74\
    \xfc\xcd\xdb\xad\x85\x98\x83\x9c\xf2\x1e\x0c\xdf\xcb\x2b\x98\x8d";

const FIRST_OF_TEN: &[u8; 32] = b"\xe7\xc9\xa9\x18\x4c\x34\x92\x2f\xda\x85\xba\x1d\x20\x5f\x40\x47\
    \x3e\x29\x64\x2b\xfd\x87\x0c\x02\x68\xc9\xaa\x2d\xa0\x99\x8b\x73";

const LAST_OF_TEN: &[u8; 32] = b"\x92\xb6\x03\x32\xab\x58\x2e\x63\xff\x2d\x01\xab\xfa\xbd\x6c\x78\
    \x5b\xf9\x74\xa8\xd7\xc0\x8b\x5a\xb0\xab\x99\x9d\xa8\xfb\x68\xbe";

// The public key's root, and the next signature by its length and its hash.
fn signs(
    key: &mut LmsKey,
    message: &[u8],
    root: &[u8; 32],
    len: usize,
    digest: &[u8; 32],
) -> Result<bool, SignFault> {
    let signature = key.sign(message)?;
    Ok(
        key.public().len() == 56
            && &key.public()[24..] == root.as_slice()
            && signature.len() == len
            && Sha256Id.hash(&signature) == *digest
            && LmsCheck.good(key.public(), message, &signature),
    )
}

#[test]
fn known_signatures(rt: HostRuntime) -> Result<(), Fail> {
    let mut key = LmsKey::new(rt.alloc(), SEED, ID, 5)?;
    assert!(rt; signs(&mut key, b"first", ROOT_OF_FIVE, 1292, FIRST_OF_FIVE)?);
    assert!(rt; key.used() == 1 && key.left() == 31);
    let mut key = LmsKey::resume(rt.alloc(), SEED, ID, 5, 31)?;
    assert!(rt; signs(&mut key, b"last", ROOT_OF_FIVE, 1292, LAST_OF_FIVE)?);
    assert!(rt; key.sign(b"more").err() == Some(SignFault::Spent));
    Ok(())
}

#[test]
fn known_signatures_of_height_10(rt: HostRuntime) -> Result<(), Fail> {
    let mut key = LmsKey::resume(rt.alloc(), SEED, ID, 10, 1023)?;
    assert!(rt; signs(&mut key, b"last", ROOT_OF_TEN, 1452, LAST_OF_TEN)?);
    assert!(rt; key.sign(b"more").err() == Some(SignFault::Spent));
    Ok(())
}

// Whether the next 32 signatures of a key have this length and are good.
fn are_good(key: &mut LmsKey, len: usize) -> Result<bool, SignFault> {
    for n in 0..32u8 {
        let signature = key.sign(&[n])?;
        if signature.len() != len || !LmsCheck.good(key.public(), &[n], &signature) {
            return Ok(false);
        }
    }
    Ok(true)
}

#[test]
fn every_leaf(rt: HostRuntime) -> Result<(), Fail> {
    let mut key = LmsKey::new(rt.alloc(), SEED, ID, 5)?;
    assert!(rt; are_good(&mut key, 1292)?);
    assert!(rt; key.used() == 32 && key.left() == 0);
    assert!(rt; key.sign(b"more").err() == Some(SignFault::Spent));
    Ok(())
}

// Places in each field of a signature of height 5: q, the one-time type, C, y, the tree's type, the path.
const SIGNATURE_PLACES: [usize; 12] = [0, 3, 4, 7, 8, 39, 40, 1127, 1128, 1131, 1132, 1291];

// Places in each field of a public key: the tree's type, the one-time type, I, the root.
const KEY_PLACES: [usize; 8] = [0, 3, 4, 7, 8, 23, 24, 55];

/// The bytes with one bit turned at a place.
pub fn altered(alloc: Global, bytes: &[u8], at: usize) -> Result<Vec<u8>, SignFault> {
    let mut bytes = Vec::from_slice(alloc, bytes)?;
    if at < bytes.len() {
        bytes[at] ^= 1;
    }
    Ok(bytes)
}

// Whether one of the altered signatures is good.
fn is_altered_good(
    alloc: Global,
    key: &[u8],
    message: &[u8],
    signature: &[u8],
) -> Result<bool, SignFault> {
    for at in SIGNATURE_PLACES {
        if LmsCheck.good(key, message, &altered(alloc, signature, at)?) {
            return Ok(true);
        }
    }
    Ok(false)
}

// Whether the signature is good for one of the altered keys.
fn is_good_for_altered(
    alloc: Global,
    key: &[u8],
    message: &[u8],
    signature: &[u8],
) -> Result<bool, SignFault> {
    for at in KEY_PLACES {
        if LmsCheck.good(&altered(alloc, key, at)?, message, signature) {
            return Ok(true);
        }
    }
    Ok(false)
}

#[test]
fn altered_fields(rt: HostRuntime) -> Result<(), Fail> {
    let mut key = LmsKey::new(rt.alloc(), SEED, ID, 5)?;
    let mut signature = key.sign(b"message")?;
    assert!(rt; LmsCheck.good(key.public(), b"message", &signature));
    assert!(rt; !is_altered_good(rt.alloc(), key.public(), b"message", &signature)?);
    assert!(rt; !is_good_for_altered(rt.alloc(), key.public(), b"message", &signature)?);
    assert!(rt; !LmsCheck.good(key.public(), b"messagE", &signature));
    assert!(rt;
        !LmsCheck.good(b"", b"message", &signature) && !LmsCheck.good(key.public(), b"message", b"")
    );
    signature.push(0)?;
    assert!(rt; !LmsCheck.good(key.public(), b"message", &signature));
    Ok(())
}

// Lengths of messages, and a place in each.
const LENGTHS: [(usize, usize); 4] = [(32, 31), (10_000, 0), (10_000, 64), (10_000, 9_999)];

// The next signature, of a message of this length, is good, and is not for the message that is altered at this place.
fn is_for_all_of(key: &mut LmsKey, message: &[u8], other: &[u8]) -> Result<bool, SignFault> {
    let signature = key.sign(message)?;
    Ok(
        LmsCheck.good(key.public(), message, &signature)
            && !LmsCheck.good(key.public(), other, &signature),
    )
}

#[test]
fn long_messages(rt: HostRuntime) -> Result<(), Fail> {
    let mut key = LmsKey::new(rt.alloc(), SEED, ID, 5)?;
    for (len, at) in LENGTHS {
        let message = b"m".repeat(rt.alloc(), len)?;
        let other = altered(rt.alloc(), &message, at)?;
        assert!(rt; is_for_all_of(&mut key, &message, &other)?, "{len} {at}");
    }
    Ok(())
}

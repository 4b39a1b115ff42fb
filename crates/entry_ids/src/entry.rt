//! The id of an entry, of its type and its body.
ghost use Rattle.std.specs.Prelude.{◌≡◌, ◌≤◌, length};
ghost use Rattle.entry_ids.specs.Entry.{entry};

use keyed::IdHash;
use wire::{Id, copy_at};

const LONGEST_NAME: usize = 11;

// `entryid:`, a type, a colon and a hash.
const TEXT_LEN: usize = 8 + LONGEST_NAME + 1 + 32;

// The id of an entry of this type with this body.
pub(crate) fn entry_id<H: IdHash>(hash: &H, name: &[u8], body: &[u8]) -> Id
    requires { length name.now ≤ 11 }
    ensures { result ≡ entry (H.hash_of hash.now) name.now body.now }
{
    let mut text = [0; TEXT_LEN];
    let at = copy_at(&mut text, 0, b"entryid:");
    let at = copy_at(&mut text, at, name);
    let at = copy_at(&mut text, at, b":");
    let at = copy_at(&mut text, at, &hash.hash(body));
    hash.hash(&text[..at])
}

//! The id of a block.
ghost use Rattle.std.specs.Prelude.{◌≡◌, IfOk};
ghost use Rattle.data_model.specs.Spelling.{IsHeader};
ghost use Rattle.entry_ids.specs.Entry.{header_id};

use crate::entry::entry_id;
use data_model::{Header, encode_header};
use keyed::IdHash;
use std::alloc::Global;
use wire::{Id, NoMemory};

/// The id of a block: that of its header, whose body is the header's spelling. The arguments and the transactions have
/// no part in it; the header names the transactions by their root.
pub fn block_id<H: IdHash>(alloc: Global, hash: &H, header: &Header) -> Result<Id, NoMemory>
    requires { IsHeader header.now }
    ensures { IfOk result (λ id. id ≡ header_id (H.hash_of hash.now) header.now) }
{
    let body = encode_header(alloc, header)?;
    Ok(entry_id(hash, b"blockheader", &body))
}

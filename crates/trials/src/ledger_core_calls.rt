//! Calls of ledger_core.
ghost use Rattle.std.specs.Prelude.{◌≡◌, ◌<◌, ◌^◌, [], IfOk};
ghost use Rattle.data_model.specs.Spelling.{IsHeader};

use data_model::{Block, Header, Txs};
use keyed::{NoSigs, Sha256Id};
use ledger_core::{Ledger, Tip};
use std::alloc::Global;
use std::test::Fail;
use wire::{Args, Bytes, Id, NoMemory};

const NOTHING: &[u8; 32] = b"\xe3\xb0\xc4\x42\x98\xfc\x1c\x14\x9a\xfb\xf4\xc8\x99\x6f\xb9\x24\
    \x27\xae\x41\xe4\x64\x9b\x93\x4c\xa4\x95\x99\x1b\x78\x52\xb8\x55";

// The ids of the two blocks, by hashlib of Python from their bytes.
const FIRST: &[u8; 32] = b"\x8c\x33\xcb\x48\x72\x80\xae\xcd\x93\x7a\x4d\x40\x8a\xb6\xa2\x2d\
    \x99\xe8\x9a\x92\x0c\x3d\xe0\xb9\xf2\xfd\xa0\x9a\x81\xba\x51\x9a";

const SECOND: &[u8; 32] = b"\x66\xda\xd5\x53\x13\x2b\x55\xa0\xd0\xe5\x39\x5b\xfa\x3c\xf3\x30\
    \xb0\x0b\xcd\xe9\x5d\x97\x59\x86\x7e\x02\xf9\x52\xd9\x88\x19\x71";

// A block under the program 51, with both roots of nothing, whose height and time are the same.
fn block_of(alloc: Global, height: u64, previous: &Id) -> Result<Block, NoMemory>
    requires { height < 2 ^ 63 }
    ensures header { IfOk result (λ block. IsHeader block.header) }
    ensures txs { IfOk result (λ block. block.txs ≡ []) }
{
    Ok(Block {
        header: Header {
            version: 1,
            height,
            previous: *previous,
            time: height,
            tx_root: *NOTHING,
            unspent_root: *NOTHING,
            next_program: Bytes::from_slice(alloc, &[0x51])?,
        },
        args: Args::new(alloc),
        txs: Txs::new(alloc),
    })
}

// A ledger of the first block is offered the second.
fn is_extended(alloc: Global, first: Block, second: Block) -> bool
    requires first { IsHeader first.header }
    requires second { IsHeader second.header }
    requires txs { second.txs ≡ [] }
{
    let Ok(mut ledger) = Ledger::start(alloc, &Sha256Id, first) else {
        return false;
    };
    let Ok(added) = ledger.offer(alloc, &Sha256Id, &NoSigs, second) else {
        return false;
    };
    added.height == 2
        && added.id == *SECOND
        && is_second(&ledger.tip())
        && ledger.blocks().len() == 2
}

fn is_second(tip: &Tip<'_>) -> bool {
    tip.id == *SECOND
        && (tip.height, tip.time, tip.version) == (2, 2, 1)
        && tip.next_program == b"\x51".as_slice()
}

#[test]
fn offers_to_a_ledger(rt: HostRuntime) -> Result<(), Fail> {
    let first = block_of(rt.alloc(), 1, &[0; 32])?;
    let second = block_of(rt.alloc(), 2, FIRST)?;
    assert!(rt; is_extended(rt.alloc(), first, second));
    Ok(())
}

//! Calls of data_model.
ghost use Rattle.data_model.specs.Spelling.{IsBlock};

use crate::transactions::{ISSUES, SPENDS};
use data_model::{
    Block, Control, Ids, Input, Inputs, Issue, Output, OutputBody, Outputs, Retire, Spend, Tx, Txs,
    decode_block, encode_block, encode_header, frame, read_blocks,
};
use std::alloc::Global;
use std::test::Fail;
use wire::{Args, Bytes, DataFault, DataKind, NoMemory};

// Version 1, height 1, 32 zero bytes, time 1, twice the hash of nothing, the program 51, the arguments 61 and 6263, and
// no transaction.
const BLOCK: &[u8; 108] = b"\x01\x01\
    \0\0\0\0\0\0\0\0\0\0\0\0\0\0\0\0\0\0\0\0\0\0\0\0\0\0\0\0\0\0\0\0\x01\
    \xe3\xb0\xc4\x42\x98\xfc\x1c\x14\x9a\xfb\xf4\xc8\x99\x6f\xb9\x24\
    \x27\xae\x41\xe4\x64\x9b\x93\x4c\xa4\x95\x99\x1b\x78\x52\xb8\x55\
    \xe3\xb0\xc4\x42\x98\xfc\x1c\x14\x9a\xfb\xf4\xc8\x99\x6f\xb9\x24\
    \x27\xae\x41\xe4\x64\x9b\x93\x4c\xa4\x95\x99\x1b\x78\x52\xb8\x55\
    \x01\x51\x02\x01\x61\x02\x62\x63\x00";

// A copy of the block, spelled again.
fn block_again(alloc: Global, block: &Block) -> Result<Vec<u8>, NoMemory>
    requires { IsBlock block.now }
{
    encode_block(alloc, &block.copy(alloc)?)
}

// The header of the block, spelled again.
fn header_again(alloc: Global, block: &Block) -> Result<Vec<u8>, NoMemory>
    requires { IsBlock block.now }
{
    encode_header(alloc, &block.header)
}

// Whether the block's frame has its length of one byte in front, and is read as one block.
fn is_framed(alloc: Global, block: &Block) -> bool
    requires { IsBlock block.now }
{
    match frame(alloc, block) {
        Ok(file) => file.as_slice().first() == Some(&108) && holds_one(alloc, &file),
        Err(_) => false,
    }
}

fn holds_one(alloc: Global, file: &[u8]) -> bool {
    match read_blocks(alloc, file) {
        Ok(blocks) => file.len() == 109 && blocks.len() == 1,
        Err(_) => false,
    }
}

#[test]
fn blocks_again(rt: HostRuntime) -> Result<(), Fail> {
    let block = decode_block(rt.alloc(), BLOCK)?;
    assert!(rt; block_again(rt.alloc(), &block)?.as_slice() == BLOCK.as_slice());
    assert!(rt; header_again(rt.alloc(), &block)?.as_slice() == &BLOCK[..101]);
    assert!(rt; is_framed(rt.alloc(), &block));
    Ok(())
}

// The header and the arguments of the block, and these bytes after them.
fn with(alloc: Global, count: &[u8], first: &[u8], second: &[u8]) -> Result<Bytes, NoMemory> {
    let mut bytes = Bytes::from_slice(alloc, &BLOCK[..107])?;
    bytes.extend_from_slice(count)?;
    bytes.extend_from_slice(first)?;
    bytes.extend_from_slice(second)?;
    Ok(bytes)
}

#[test]
fn blocks_with_transactions(rt: HostRuntime) -> Result<(), Fail> {
    let bytes = with(rt.alloc(), b"\x02", ISSUES, SPENDS)?;
    let block = decode_block(rt.alloc(), bytes.as_slice())?;
    assert!(rt; block.txs.len() == 2);
    assert!(rt; block_again(rt.alloc(), &block)?.as_slice() == bytes.as_slice());
    // after the length of two bytes
    let file = frame(rt.alloc(), &block)?;
    assert!(rt; file.len() == 375 && file.as_slice().starts_with(b"\xf5\x02"));
    assert!(rt; read_blocks(rt.alloc(), &file)?.len() == 1);
    Ok(())
}

// What stands after the arguments: a count, and what should be two transactions or parts of them; and the fault. The
// places are those of another program, Python's, which reads by the table of fields.
const FAULTS: [(&[u8], &[u8], &[u8], u64, DataKind); 10] = [
    // the count
    (b"", b"", b"", 107, DataKind::Short),
    (b"\x80\0", b"", b"", 107, DataKind::NotShortest),
    (b"\x91\x4e", ISSUES, b"", 107, DataKind::TooBig),
    // the greatest count, and no transaction
    (b"\x90\x4e", b"", b"", 109, DataKind::Short),
    // the second transaction
    (b"\x02", ISSUES, b"", 192, DataKind::Short),
    (b"\x02", ISSUES, b"\x01\0\0\0\x01\x02", 197, DataKind::Kind),
    (
        b"\x02",
        ISSUES,
        b"\x01\0\0\0\x01\0\0\0\0\0\0\0\0\0\0\0\0\0\0\0\0\0\0\0\0\0\0\0\0\0\0\0\0\0\0\0\0\0\0\0",
        231,
        DataKind::Zero,
    ),
    // bytes after the end
    (
        b"\x02",
        ISSUES,
        b"\x01\0\0\0\0\0\0",
        198,
        DataKind::Trailing,
    ),
    (b"\x01", ISSUES, SPENDS, 192, DataKind::Trailing),
    (b"\0", ISSUES, b"", 108, DataKind::Trailing),
];

fn has_fault(alloc: Global, bytes: &[u8], at: u64, kind: DataKind) -> bool {
    match decode_block(alloc, bytes) {
        Err(fault) => fault == DataFault::At { at, kind },
        Ok(_) => false,
    }
}

#[test]
fn faults_of_blocks(rt: HostRuntime) -> Result<(), Fail> {
    for (count, first, second, at, kind) in &FAULTS {
        let bytes = with(rt.alloc(), count, first, second)?;
        assert!(rt;
            has_fault(rt.alloc(), bytes.as_slice(), *at, *kind),
            "{bytes:?}"
        );
    }
    Ok(())
}

fn issue(alloc: Global) -> Issue {
    Issue {
        nonce: Bytes::new(alloc),
        asset: [3; 32],
        amount: 5,
        program: Bytes::new(alloc),
        definition: Bytes::new(alloc),
        refdata: Bytes::new(alloc),
        args: Args::new(alloc),
    }
}

fn spend(alloc: Global) -> Spend {
    Spend {
        from: OutputBody {
            source: [1; 32],
            position: 2,
            asset: [3; 32],
            amount: 4,
            program: Bytes::new(alloc),
            data_hash: [4; 32],
        },
        refdata: Bytes::new(alloc),
        args: Args::new(alloc),
    }
}

// An issuance, and a spend.
fn inputs(alloc: Global) -> Result<Inputs, NoMemory> {
    let mut inputs = Inputs::new(alloc);
    inputs.push(Input::Issue(issue(alloc)))?;
    inputs.push(Input::Spend(spend(alloc)))?;
    Ok(inputs)
}

// An output under a program, and one under none.
fn outputs(alloc: Global) -> Result<Outputs, NoMemory> {
    let mut outputs = Outputs::new(alloc);
    outputs.push(Output::Control(Control {
        asset: [3; 32],
        amount: 8,
        program: Bytes::new(alloc),
        refdata: Bytes::new(alloc),
    }))?;
    outputs.push(Output::Retire(Retire {
        asset: [3; 32],
        amount: 1,
        refdata: Bytes::new(alloc),
    }))?;
    Ok(outputs)
}

fn transaction(alloc: Global) -> Result<Tx, NoMemory> {
    Ok(Tx {
        version: 1,
        mintime: 0,
        maxtime: 5,
        refdata: Bytes::from_slice(alloc, &[7])?,
        inputs: inputs(alloc)?,
        outputs: outputs(alloc)?,
    })
}

// A list of one transaction, which is a copy.
fn copies(alloc: Global, tx: &Tx) -> Result<Txs, NoMemory> {
    let mut txs = Txs::new(alloc);
    txs.push(tx.copy(alloc)?)?;
    Ok(txs)
}

fn has_all(tx: &Tx) -> bool {
    (tx.inputs.len(), tx.outputs.len()) == (2, 2) && tx.refdata.as_slice() == b"\x07".as_slice()
}

#[test]
fn copies_of_transactions(rt: HostRuntime) -> Result<(), Fail> {
    let tx = transaction(rt.alloc())?;
    let txs = copies(rt.alloc(), &tx)?;
    assert!(rt; txs.len() == 1);
    for copy in txs.as_slice() {
        assert!(rt; has_all(copy));
    }
    Ok(())
}

#[test]
fn lists_of_ids(rt: HostRuntime) -> Result<(), Fail> {
    let mut ids = Ids::new(rt.alloc());
    ids.push([1; 32])?;
    assert!(rt; ids.len() == 1);
    Ok(())
}

//! Calls of ledger_file.
ghost use Rattle.data_model.specs.Spelling.{IsBlock};

use data_model::{Block, DataKind, decode_block};
use keyed::{NoSigs, Sha256Id};
use ledger_core::{BlockRefusal, StartFault};
use ledger_file::{LoadFault, append_block, append_frame, frame, load, split_frame};
use outside::{Both, FileFault, MemFiles, MemSink};
use std::alloc::{AllocError, Global};
use std::test::Fail;

// The frames of two blocks, each of 103 bytes after the length: version 1, heights and times 1 and 2, the ids before
// them, twice the hash of nothing, the program 51, no argument and no transaction. The ids are by hashlib of Python.
const FILE: &[u8; 208] = b"\x67\x01\x01\
    \0\0\0\0\0\0\0\0\0\0\0\0\0\0\0\0\0\0\0\0\0\0\0\0\0\0\0\0\0\0\0\0\x01\
    \xe3\xb0\xc4\x42\x98\xfc\x1c\x14\x9a\xfb\xf4\xc8\x99\x6f\xb9\x24\
    \x27\xae\x41\xe4\x64\x9b\x93\x4c\xa4\x95\x99\x1b\x78\x52\xb8\x55\
    \xe3\xb0\xc4\x42\x98\xfc\x1c\x14\x9a\xfb\xf4\xc8\x99\x6f\xb9\x24\
    \x27\xae\x41\xe4\x64\x9b\x93\x4c\xa4\x95\x99\x1b\x78\x52\xb8\x55\
    \x01\x51\x00\x00\x67\x01\x02\
    \x8c\x33\xcb\x48\x72\x80\xae\xcd\x93\x7a\x4d\x40\x8a\xb6\xa2\x2d\
    \x99\xe8\x9a\x92\x0c\x3d\xe0\xb9\xf2\xfd\xa0\x9a\x81\xba\x51\x9a\x02\
    \xe3\xb0\xc4\x42\x98\xfc\x1c\x14\x9a\xfb\xf4\xc8\x99\x6f\xb9\x24\
    \x27\xae\x41\xe4\x64\x9b\x93\x4c\xa4\x95\x99\x1b\x78\x52\xb8\x55\
    \xe3\xb0\xc4\x42\x98\xfc\x1c\x14\x9a\xfb\xf4\xc8\x99\x6f\xb9\x24\
    \x27\xae\x41\xe4\x64\x9b\x93\x4c\xa4\x95\x99\x1b\x78\x52\xb8\x55\
    \x01\x51\x00\x00";

const FIRST: &[u8; 32] = b"\x8c\x33\xcb\x48\x72\x80\xae\xcd\x93\x7a\x4d\x40\x8a\xb6\xa2\x2d\
    \x99\xe8\x9a\x92\x0c\x3d\xe0\xb9\xf2\xfd\xa0\x9a\x81\xba\x51\x9a";

const SECOND: &[u8; 32] = b"\x66\xda\xd5\x53\x13\x2b\x55\xa0\xd0\xe5\x39\x5b\xfa\x3c\xf3\x30\
    \xb0\x0b\xcd\xe9\x5d\x97\x59\x86\x7e\x02\xf9\x52\xd9\x88\x19\x71";

fn joined(alloc: Global, front: &[u8], back: &[u8]) -> Result<Vec<u8>, AllocError> {
    let mut bytes = front.to_vec(alloc)?;
    bytes.extend_from_slice(back)?;
    Ok(bytes)
}

// How many blocks the ledger of a short file has, or its fault.
fn loaded(alloc: Global, bytes: &[u8]) -> Result<usize, LoadFault> {
    if bytes.len() > 1_000 {
        return Ok(0);
    }
    let ledger = load(alloc, &Sha256Id, &NoSigs, bytes)?;
    Ok(ledger.blocks().len())
}

fn frame_fault(index: u64, at: u64, kind: DataKind) -> Result<usize, LoadFault> {
    Err(LoadFault::Frame { index, at, kind })
}

#[test]
fn ledgers_of_files(rt: HostRuntime) -> Result<(), Fail> {
    let none: &[u8] = b"";
    let file: &[u8] = FILE;
    let first = &file[..104];
    let second = &file[104..];
    let refusal = BlockRefusal::B1 {
        tip: *SECOND,
        given: *FIRST,
    };
    for (front, back, want) in [
        (first, none, Ok(1)),
        (first, second, Ok(2)),
        (none, none, frame_fault(0, 0, DataKind::Count)),
        // the last frame is torn, in its block and after its length
        (first, &file[104..207], frame_fault(1, 104, DataKind::Short)),
        (first, &file[104..105], frame_fault(1, 104, DataKind::Short)),
        // a block of two bytes, which spell its version with one too many
        (
            first,
            b"\x02\x81\x00".as_slice(),
            frame_fault(1, 105, DataKind::NotShortest),
        ),
        (
            second,
            first,
            Err(LoadFault::Start(StartFault::HeightNotOne)),
        ),
        (file, second, Err(LoadFault::Block { index: 2, refusal })),
    ] {
        let bytes = joined(rt.alloc(), front, back)?;
        assert!(rt; loaded(rt.alloc(), bytes.as_slice()) == want);
    }
    Ok(())
}

// The second of these calls of `append_block` fails.
fn appended(alloc: Global, files: &mut MemFiles, block: &Block) -> [Result<(), FileFault>; 3]
    requires { IsBlock block.now }
{
    [
        append_block(alloc, files, "ledger", block),
        append_block(alloc, files, "ledger", block),
        append_block(alloc, files, "new", block),
    ]
}

#[test]
fn blocks_behind_files(rt: HostRuntime) -> Result<(), Fail> {
    let file: &[u8] = FILE;
    let block = decode_block(rt.alloc(), &file[105..])?;
    let second = &file[104..];
    assert!(rt; frame(rt.alloc(), &block)?.as_slice() == second);
    let mut files = MemFiles::new(rt.alloc(), vec![in rt.alloc(); 1]?);
    files.put("ledger", &file[..104])?;
    let answers = appended(rt.alloc(), &mut files, &block);
    assert!(rt; answers == [Ok(()), Err(FileFault::Failed), Ok(())]);
    assert!(rt; files.get("ledger") == Some(file));
    assert!(rt; files.get("new") == Some(second) && files.calls() == 3);
    Ok(())
}

#[test]
fn first_frames(rt: HostRuntime) -> Result<(), Fail> {
    let file: &[u8] = FILE;
    for (bytes, len) in [
        (file, 104),
        (&file[104..], 104),
        // none, a length alone, and a byte too few
        (&file[..0], 0),
        (&file[..1], 1),
        (&file[..103], 103),
        // from the wrong byte: lengths of 1, of 1 and of 0
        (&file[1..], 2),
        (&file[2..], 2),
        (&file[3..], 1),
        // a length of 128 in two bytes, and the same cut short
        (b"\x80\x01\x05".as_slice(), 3),
        (b"\x80".as_slice(), 1),
        // a length with a group too many, and one of 64 MiB and a byte
        (b"\x81\x00\x05\x06".as_slice(), 4),
        (b"\x81\x80\x80\x20\x05".as_slice(), 5),
        // bytes that spell no block
        (b"\x02\x05\x06\x07".as_slice(), 3),
    ] {
        let (frame, more) = split_frame(bytes);
        assert!(rt; len <= bytes.len());
        assert!(rt; frame == &bytes[..len] && more == &bytes[len..]);
    }
    Ok(())
}

// A length of two bytes with as many bytes as it says, and the frame after them.
#[test]
fn longer_frames(rt: HostRuntime) -> Result<(), Fail> {
    let mut bytes = vec![in rt.alloc(); 0x80, 0x01]?;
    for _ in 0..128 {
        bytes.push(7)?;
    }
    bytes.extend_from_slice(FILE)?;
    let (frame, more) = split_frame(bytes.as_slice());
    assert!(rt; frame.len() == 130 && more == FILE.as_slice());
    Ok(())
}

#[test]
fn frames_after_files(rt: HostRuntime) -> Result<(), Fail> {
    let file: &[u8] = FILE;
    let (first, more) = split_frame(file);
    let (second, _) = split_frame(more);
    let mut files = MemFiles::new(rt.alloc(), vec![in rt.alloc(); 1]?);
    files.put("ledger", first)?;
    let mut out = MemSink::new(rt.alloc(), Vec::new(rt.alloc()));
    let mut both = Both {
        files: &mut files,
        out: &mut out,
    };
    let answers = [
        append_frame(&mut both, "ledger", second),
        append_frame(&mut both, "ledger", second),
        append_frame(&mut both, "new", first),
    ];
    assert!(rt; answers == [Ok(()), Err(FileFault::Failed), Ok(())]);
    assert!(rt; files.get("ledger") == Some(file));
    assert!(rt; files.get("new") == Some(first) && files.calls() == 3);
    assert!(rt; out.calls() == 0);
    Ok(())
}

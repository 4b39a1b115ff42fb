//! Calls of vm_run.
ghost use Rattle.std.specs.Prelude.{◌<◌, ◌≤◌, ◌^◌, IfOk};
ghost use Rattle.vm_run.specs.Row.{NumbersFit};

use keyed::NoSigs;
use std::alloc::Global;
use vm_num::Failure;
use vm_run::{BlockContext, Context, NoMemory, Verdict, verify};
use wire::{Args, Bytes};

// The context of a block of this time, whose id is 01, thirty times ab and 02.
fn context_at(alloc: Global, time: u64) -> Result<Context, NoMemory>
    requires { time < 2 ^ 63 }
    ensures { IfOk result NumbersFit }
{
    let mut block_id = [0xab; 32];
    block_id[0] = 0x01;
    block_id[31] = 0x02;
    Ok(Context::Block(BlockContext {
        block_id,
        program: Bytes::from_slice(alloc, &[0x51, 0xaa])?,
        next_program: Bytes::from_slice(alloc, &[0x52, 0xbb, 0xcc])?,
        time,
    }))
}

// The verdict of a program without arguments, in a block of this time.
fn verdict_at(alloc: Global, time: u64, program: &[u8], limit: u64) -> Result<Verdict, NoMemory>
    requires time { time < 2 ^ 63 }
    requires limit { limit ≤ 100000 }
{
    let context = context_at(alloc, time)?;
    verify(alloc, &context, &NoSigs, program, &Args::new(alloc), limit)
}

const SHORT: Verdict = Verdict::Failed {
    kind: Failure::RunLimit,
    at: 0,
};

const FALSE: Verdict = Verdict::Failed {
    kind: Failure::FalseResult,
    at: 1,
};

const LAST: u64 = (1 << 63) - 1;

// The time of the block, a program, a limit, and the verdict. Each code alone at a limit that is ample, at the least
// that suffices, and at one less; then its item against bytes. An item costs 8 and its length, and EQUAL costs 1 and
// the shorter length.
const IN_A_BLOCK: [(u64, &[u8], u64, Verdict); 24] = [
    (1, b"\xaf", 100, Verdict::Succeeded { left: 59 }),
    (1, b"\xaf", 41, Verdict::Succeeded { left: 0 }),
    (1, b"\xaf", 40, SHORT),
    (
        1,
        b"\xaf\x20\x01\xab\xab\xab\xab\xab\xab\xab\xab\xab\xab\xab\xab\xab\xab\xab\
        \xab\xab\xab\xab\xab\xab\xab\xab\xab\xab\xab\xab\xab\xab\xab\x02\x87",
        1000,
        Verdict::Succeeded { left: 956 },
    ),
    (1, b"\xc4", 100, Verdict::Succeeded { left: 89 }),
    (1, b"\xc4", 11, Verdict::Succeeded { left: 0 }),
    (1, b"\xc4", 10, SHORT),
    (
        1,
        b"\xc4\x02\x51\xaa\x87",
        100,
        Verdict::Succeeded { left: 86 },
    ),
    (1, b"\xcd", 100, Verdict::Succeeded { left: 88 }),
    (1, b"\xcd", 12, Verdict::Succeeded { left: 0 }),
    (1, b"\xcd", 11, SHORT),
    (
        1,
        b"\xcd\x03\x52\xbb\xcc\x87",
        100,
        Verdict::Succeeded { left: 85 },
    ),
    (0, b"\xce", 100, FALSE),
    (0, b"\xce", 8, SHORT),
    (0, b"\xce\x00\x87", 100, Verdict::Succeeded { left: 88 }),
    (1, b"\xce", 100, Verdict::Succeeded { left: 90 }),
    (1, b"\xce", 10, Verdict::Succeeded { left: 0 }),
    (1, b"\xce", 9, SHORT),
    (1, b"\xce\x51\x87", 100, Verdict::Succeeded { left: 87 }),
    (
        128,
        b"\xce\x01\x80\x87",
        100,
        Verdict::Succeeded { left: 87 },
    ),
    (LAST, b"\xce", 17, Verdict::Succeeded { left: 0 }),
    (LAST, b"\xce", 16, SHORT),
    (
        LAST,
        b"\xce\x08\xff\xff\xff\xff\xff\xff\xff\x7f\x87",
        100,
        Verdict::Succeeded { left: 80 },
    ),
    (1, b"\x51", 100, Verdict::Succeeded { left: 90 }),
];

fn is_verdict(alloc: Global, time: u64, program: &[u8], limit: u64, wanted: Verdict) -> bool {
    time <= LAST && limit <= 100_000 && verdict_at(alloc, time, program, limit) == Ok(wanted)
}

#[test]
fn runs_in_a_block(rt: HostRuntime) {
    for (time, program, limit, wanted) in &IN_A_BLOCK {
        assert!(rt;
            is_verdict(rt.alloc(), *time, program, *limit, *wanted),
            "{program:?}"
        );
    }
}

//! Calls of vm_ops.
// Values by Python, from the lines of the code table. The crate `calls` plays all of it.
use std::alloc::Global;
use vm_num::Failure;
use vm_ops::{RowFault, bytes_row, number_row};

// 2 is WITHIN 1 and 5.
fn is_within() -> bool {
    match number_row(0xa5, 2, 1, 5) {
        Ok(item) => item.as_slice() == b"\x01".as_slice(),
        Err(_) => false,
    }
}

// SUBSTR, after what was there.
fn is_part(alloc: Global) -> bool {
    let Ok(mut out) = b"a".to_vec(alloc) else {
        return false;
    };
    bytes_row(0x7f, b"\x01\x02\x03", b"", 1, 2, &mut out).is_ok()
        && out.as_slice() == b"a\x02\x03".as_slice()
}

// CATPUSHDATA of 70,000 bytes, whose length is 0x00011170.
fn pushes_long(alloc: Global) -> Result<bool, RowFault> {
    let long = b"b".repeat(alloc, 70_000)?;
    let mut wanted = b"a\x4e\x70\x11\x01\x00".to_vec(alloc)?;
    wanted.extend_from_slice(&long)?;
    let mut out = Vec::new(alloc);
    bytes_row(0x89, b"a", &long, 0, 0, &mut out)?;
    Ok(out.as_slice() == wanted.as_slice())
}

#[test]
fn rows(rt: HostRuntime) {
    assert!(rt; is_within());
    assert!(rt; number_row(0x95, i64::MAX, 2, 0).err() == Some(Failure::Range));
    assert!(rt; is_part(rt.alloc()));
    assert!(rt; matches!(pushes_long(rt.alloc()), Ok(true)));
}

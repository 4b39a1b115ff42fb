//! Calls of vm_stack.
// What is expected is worked out by hand from the lines of the code table for DROP, PICK, ROLL, TOALTSTACK and
// FROMALTSTACK; an item costs 8 and its length. The crate `calls` plays more moves.
use keyed::Pile;
use std::alloc::Global;
use vm_stack::{Stack, StackFault};

// `a`, `bb` and, on top, the empty item; `dddd` on the alt stack.
fn four_items(alloc: Global) -> Result<Stack, StackFault> {
    let mut stack = Stack::new(alloc);
    stack.push(b"dddd")?;
    stack.to_alt()?;
    stack.push(b"a")?;
    stack.push_vec(b"bb".to_vec(alloc)?)?;
    stack.push(b"")?;
    Ok(stack)
}

// So far below the top stands this item.
fn shows(stack: &Stack, k: u64, item: &[u8]) -> bool {
    stack.item(k) == Some(item)
}

// The data stack has so many items and the other one so many, and together they cost so much.
fn holds(stack: &Stack, depth: u64, alt_depth: u64, held: u64) -> bool {
    stack.depth() == depth && stack.alt_depth() == alt_depth && stack.held() == held
}

// `bb` is copied to the top and dropped, `a` comes up, and `dddd` comes back.
fn moves(alloc: Global) -> Result<bool, StackFault> {
    let mut stack = four_items(alloc)?;
    stack.pick(1)?;
    stack.drop_top(1)?;
    stack.roll(2)?;
    stack.from_alt()?;
    let is_moved = shows(&stack, 0, b"dddd") && shows(&stack, 1, b"a") && shows(&stack, 3, b"bb");
    Ok(is_moved && holds(&stack, 4, 0, 39))
}

// The two items on top are taken off, with their cost.
fn splits(alloc: Global) -> Result<bool, StackFault> {
    let mut stack = four_items(alloc)?;
    let top = stack.split_top(2)?;
    let is_split = shows(&top, 0, b"") && shows(&top, 1, b"bb") && shows(&stack, 0, b"a");
    Ok(is_split && holds(&top, 2, 0, 18) && holds(&stack, 1, 1, 21))
}

// 0 to 19, a byte each, are put on the alt stack.
fn twenty_on_alt(alloc: Global) -> Result<Stack, StackFault> {
    let mut stack = Stack::new(alloc);
    for k in 0..20u8 {
        stack.push(&[k])?;
        stack.to_alt()?;
    }
    Ok(stack)
}

// They cost 9 each, and come back the last first, so that 0 is on top at the end.
fn moves_twenty(alloc: Global) -> Result<bool, StackFault> {
    let mut stack = twenty_on_alt(alloc)?;
    let is_away = holds(&stack, 0, 20, 180);
    for _ in 0..20 {
        stack.from_alt()?;
    }
    let is_back = holds(&stack, 20, 0, 180);
    Ok(is_away && is_back && shows(&stack, 0, &[0]) && shows(&stack, 19, &[19]))
}

#[test]
fn moves_and_splits(rt: HostRuntime) {
    assert!(rt; moves(rt.alloc()) == Ok(true));
    assert!(rt; splits(rt.alloc()) == Ok(true));
    assert!(rt; moves_twenty(rt.alloc()) == Ok(true));
}

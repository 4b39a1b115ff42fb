//! The pushes of strings and of numbers that programs are written with.
ghost use Rattle.std.specs.Prelude.{◌≡◌, ◌<◌, ◌^◌, ◌++◌, length, OnOk, OnErr};
ghost use Rattle.vm_num.specs.Push.{push_of, push_int_of};

use crate::{NoMemory, write_num};

/// Appends the push of an item: FALSE for an empty one, else the shortest of the codes 01 to 4e. After a refusal `out`
/// is as it was.
#[tactic(auto, unfolding(crate::specs::Push::push_of))]
pub fn push_bytes(out: &mut Vec<u8>, item: &[u8]) -> Result<(), NoMemory>
    requires { length item.now < 2 ^ 32 }
    ensures ok { OnOk result (out.new.items ≡ out.old.items ++ push_of item.now) }
    ensures err { OnErr result (out.new.items ≡ out.old.items) }
{
    match item.len() {
        0 => append(out, &[0], item),
        len @ 1..=75 => append(out, &[len as u8], item),
        len @ 76..=0xff => append(out, &[76, len as u8], item),
        len @ 0x100..=0xffff => {
            let [low, high] = (len as u16).to_le_bytes();
            append(out, &[77, low, high], item)
        }
        len => {
            let [a, b, c, d] = (len as u32).to_le_bytes();
            append(out, &[78, a, b, c, d], item)
        }
    }
}

/// Appends the shortest instruction that pushes this number. After a refusal `out` is as it was.
pub fn push_int(out: &mut Vec<u8>, n: i64) -> Result<(), NoMemory>
    ensures ok { OnOk result (out.new.items ≡ out.old.items ++ push_int_of n) }
    ensures err { OnErr result (out.new.items ≡ out.old.items) }
{
    match n {
        -1 => append(out, &[79], &[]),
        0 => append(out, &[0], &[]),
        1..=16 => append(out, &[80 + n as u8], &[]),
        _ => push_bytes(out, write_num(n).as_slice()),
    }
}

// Both parts at the end, or neither.
fn append(out: &mut Vec<u8>, front: &[u8], rest: &[u8]) -> Result<(), NoMemory>
    ensures ok { OnOk result (out.new.items ≡ out.old.items ++ front.now ++ rest.now) }
    ensures err { OnErr result (out.new.items ≡ out.old.items) }
{
    let len = out.len();
    out.extend_from_slice(front)?;
    if out.extend_from_slice(rest).is_err() {
        out.truncate(len);
        return Err(NoMemory);
    }
    Ok(())
}

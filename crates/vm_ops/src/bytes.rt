//! The rows that make an item of strings of bytes.
ghost use Rattle.std.specs.Prelude.{◌≡◌, ◌<◌, ◌^◌, ◌++◌, Ok, Err, OnOk, OnErr, IfOk, IfErr, length, map, max, min};
ghost use Rattle.std.specs.Int.{w8, bit_not};
ghost use Rattle.vm_ops.specs.Bits.{each_of};
ghost use Rattle.vm_ops.specs.Operators.{bit_operation};
ghost use Rattle.vm_ops.specs.Bytes.{IsBytesCode, AddsItem, IsFailureOf, bytes_result, part_result, end_result};
ghost use Rattle.vm_ops.specs.Bytes.{push_result};
ghost use Rattle.vm_ops.specs.Results.{truth_item};

use crate::RowFault;
use crate::bits::{Bitwise, fill, invert};
use crate::codes::{AND, CAT, CATPUSHDATA, EQUAL, INVERT, LEFT, OR, RIGHT, SUBSTR, XOR};
use sha2::{Digest, Sha256};
use vm_num::{Failure, push_bytes};

/// Appends the result of a row on strings of bytes: the codes 7e to 81, 83 to 87, 89 and a8 (Chain VM 1, CAT, SUBSTR,
/// LEFT, RIGHT, INVERT, AND, OR, XOR, EQUAL, CATPUSHDATA, and SHA256, which is that of FIPS 180-4). Of a and b, the
/// deeper first, of the place `from` and of the number of bytes `size` a row uses what it takes. EQUAL gives `01` or
/// empty.
///
/// `BadValue` is a place or a number of bytes that is negative or leads past the end of `a`, and, for CATPUSHDATA, a
/// `b` of 2^32 bytes or more. After a failure, out of memory too, `out` is as it was.
#[tactic(auto, unfolding(crate::specs::Bytes::bytes_result))]
pub fn bytes_row(
    code: u8,
    a: &[u8],
    b: &[u8],
    from: i64,
    size: i64,
    out: &mut Vec<u8>,
) -> Result<(), RowFault>
    requires { IsBytesCode code }
    ensures ok { OnOk result (AddsItem out.old.items out.new.items (bytes_result code a.now b.now from size)) }
    ensures cause { IfErr result (IsFailureOf (bytes_result code a.now b.now from size)) }
    ensures err { OnErr result (out.new.items ≡ out.old.items) }
{
    match code {
        CAT => join(a, b, out),
        SUBSTR => append_part(a, from, size, out),
        LEFT => append_part(a, 0, size, out),
        RIGHT => append_end(a, size, out),
        INVERT => append_inverted(a, out),
        AND => append_each(Bitwise::And, a, b, a.len().min(b.len()), out),
        OR => append_each(Bitwise::Or, a, b, a.len().max(b.len()), out),
        XOR => append_each(Bitwise::Xor, a, b, a.len().max(b.len()), out),
        EQUAL => append(truth_bytes(a == b), out),
        CATPUSHDATA => append_push(a, b, out),
        _ => append(&Sha256::digest(a), out),
    }
}

fn append(bytes: &[u8], out: &mut Vec<u8>) -> Result<(), RowFault>
    ensures ok { OnOk result (out.new.items ≡ out.old.items ++ bytes.now) }
    ensures memory { IfErr result (λ e. e ≡ RowFault.NoMemory) }
    ensures err { OnErr result (out.new.items ≡ out.old.items) }
{
    out.extend_from_slice(bytes)?;
    Ok(())
}

fn truth_bytes(holds: bool) -> &'static [u8]
    ensures { result.now ≡ truth_item holds }
{
    if holds { &[1] } else { &[] }
}

fn join(a: &[u8], b: &[u8], out: &mut Vec<u8>) -> Result<(), RowFault>
    ensures ok { OnOk result (out.new.items ≡ out.old.items ++ (a.now ++ b.now)) }
    ensures memory { IfErr result (λ e. e ≡ RowFault.NoMemory) }
    ensures err { OnErr result (out.new.items ≡ out.old.items) }
{
    out.reserve(a.len() + b.len())?;
    out.extend_from_slice(a)?;
    out.extend_from_slice(b)?;
    Ok(())
}

fn append_push(a: &[u8], b: &[u8], out: &mut Vec<u8>) -> Result<(), RowFault>
    ensures ok { OnOk result (AddsItem out.old.items out.new.items (push_result a.now b.now)) }
    ensures cause { IfErr result (IsFailureOf (push_result a.now b.now)) }
    ensures err { OnErr result (out.new.items ≡ out.old.items) }
{
    if b.len() > 0xffff_ffff {
        return Err(RowFault::Row(Failure::BadValue));
    }
    let len = out.len();
    out.reserve(a.len() + b.len() + 5)?;
    out.extend_from_slice(a)?;
    if push_bytes(out, b).is_err() {
        out.truncate(len);
        return Err(RowFault::NoMemory);
    }
    Ok(())
}

fn append_part(a: &[u8], from: i64, size: i64, out: &mut Vec<u8>) -> Result<(), RowFault>
    ensures ok { OnOk result (AddsItem out.old.items out.new.items (part_result a.now from size)) }
    ensures cause { IfErr result (IsFailureOf (part_result a.now from size)) }
    ensures err { OnErr result (out.new.items ≡ out.old.items) }
{
    append(part(a, from, size)?, out)
}

fn part(a: &[u8], from: i64, size: i64) -> Result<&[u8], Failure>
    ensures ok { IfOk result (λ s. part_result a.now from size ≡ Ok s.now) }
    ensures err { IfErr result (λ kind. part_result a.now from size ≡ Err kind) }
{
    if from < 0 || size < 0 {
        return Err(Failure::BadValue);
    }
    let from = from as usize;
    let size = size as usize;
    if from + size > a.len() {
        return Err(Failure::BadValue);
    }
    Ok(&a[from..from + size])
}

fn append_end(a: &[u8], size: i64, out: &mut Vec<u8>) -> Result<(), RowFault>
    ensures ok { OnOk result (AddsItem out.old.items out.new.items (end_result a.now size)) }
    ensures cause { IfErr result (IsFailureOf (end_result a.now size)) }
    ensures err { OnErr result (out.new.items ≡ out.old.items) }
{
    append(last(a, size)?, out)
}

fn last(a: &[u8], size: i64) -> Result<&[u8], Failure>
    ensures ok { IfOk result (λ s. end_result a.now size ≡ Ok s.now) }
    ensures err { IfErr result (λ kind. end_result a.now size ≡ Err kind) }
{
    if size < 0 {
        return Err(Failure::BadValue);
    }
    let size = size as usize;
    if size > a.len() {
        return Err(Failure::BadValue);
    }
    Ok(&a[a.len() - size..])
}

fn append_inverted(a: &[u8], out: &mut Vec<u8>) -> Result<(), RowFault>
    ensures ok { OnOk result (out.new.items ≡ out.old.items ++ map (bit_not w8) a.now) }
    ensures memory { IfErr result (λ e. e ≡ RowFault.NoMemory) }
    ensures err { OnErr result (out.new.items ≡ out.old.items) }
{
    let len = out.len();
    out.extend_from_slice(a)?;
    invert(&mut out[len..]);
    Ok(())
}

fn append_each(op: Bitwise, a: &[u8], b: &[u8], n: usize, out: &mut Vec<u8>) -> Result<(), RowFault>
    requires { n < 2 ^ 63 }
    ensures ok { OnOk result (out.new.items ≡ out.old.items ++ each_of (bit_operation op) a.now b.now n) }
    ensures memory { IfErr result (λ e. e ≡ RowFault.NoMemory) }
    ensures err { OnErr result (out.new.items ≡ out.old.items) }
{
    let len = out.len();
    out.resize(len + n, 0)?;
    fill(op, a, b, &mut out[len..]);
    Ok(())
}

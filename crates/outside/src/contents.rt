//! The contents of files in memory, by name.
ghost use Rattle.std.specs.Prelude.{◌≡◌, ◌<◌, ◌+◌, ◌^◌, take, IfOk, OnOk, OnErr};
ghost use Rattle.std.specs.FinMap as finite;
ghost use Rattle.std.specs.Option.{option_copied};
ghost use Rattle.outside.specs.Begun.{contents_of, write_kind};
ghost use Rattle.outside.specs.Bytes.{AreBytes};
ghost use Rattle.outside.specs.MemCalls.{content_after, torn_part, with_part};

use crate::NoMemory;
use crate::begun::BegunKind;
use std::alloc::Global;
use std::collections::BTreeMap;

/// The content of a file, or that it is missing.
pub fn content<'a>(files: &'a BTreeMap<String, Vec<u8>>, name: &str) -> Option<&'a [u8]>
    ensures { option_copied result ≡ finite.get (contents_of files.now) name.now }
{
    match files.get(name) {
        Some(bytes) => Some(bytes.as_slice()),
        None => None,
    }
}

/// Sets the content of a file.
pub fn set_content(
    alloc: Global,
    files: &mut BTreeMap<String, Vec<u8>>,
    name: &str,
    bytes: Vec<u8>,
) -> Result<(), NoMemory>
    ensures ok { OnOk result (contents_of files.new ≡ finite.insert (contents_of files.old) name.now bytes.items) }
    ensures err { OnErr result (contents_of files.new ≡ contents_of files.old) }
{
    let name = String::from_str(alloc, name)?;
    files.insert(name, bytes)?;
    Ok(())
}

/// What a write leaves in a file that has `old`, or is missing.
pub fn written(
    alloc: Global,
    kind: BegunKind,
    old: Option<&[u8]>,
    bytes: &[u8],
) -> Result<Vec<u8>, NoMemory>
    ensures { IfOk result (λ v. v.items ≡ content_after (write_kind kind) (option_copied old.entry) bytes.now) }
{
    let mut content = Vec::new(alloc);
    if let (BegunKind::Appended, Some(old)) = (kind, old) {
        content.extend_from_slice(old)?;
    }
    content.extend_from_slice(bytes)?;
    Ok(content)
}

/// What a write that failed leaves of its bytes.
pub fn torn(kind: BegunKind, keep: u64, bytes: &[u8]) -> &[u8]
    ensures { result.now ≡ torn_part (write_kind kind) keep bytes.now }
{
    match kind {
        BegunKind::Appended => &bytes[..bytes.len().min(keep as usize)],
        BegunKind::Replaced => &bytes[..0],
    }
}

/// Adds bytes at the end of a file. Where there are none, a missing file is not made.
pub fn add_part(
    alloc: Global,
    files: &mut BTreeMap<String, Vec<u8>>,
    name: &str,
    part: &[u8],
) -> Result<(), NoMemory>
    ensures ok { OnOk result (contents_of files.new ≡ with_part name.now part.now (contents_of files.old)) }
    ensures err { OnErr result (contents_of files.new ≡ contents_of files.old) }
{
    if part.is_empty() {
        return Ok(());
    }
    let next = written(alloc, BegunKind::Appended, content(files, name), part)?;
    set_content(alloc, files, name, next)
}

/// The first `most + 1` bytes, or all where they are fewer.
pub fn front(alloc: Global, whole: &[u8], most: u64) -> Result<Vec<u8>, NoMemory>
    requires { most < 2 ^ 63 }
    ensures taken { IfOk result (λ v. v.items ≡ take (most + 1) whole.now) }
    ensures bytes { IfOk result (λ v. AreBytes v.items) }
{
    let end = whole.len().min(most as usize + 1);
    Ok(whole[..end].to_vec(alloc)?)
}

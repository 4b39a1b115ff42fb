//! The files of the operating system.
ghost use Rattle.std.specs.Prelude.{◌≡◌, ◌<◌, ◌≤◌, ◌+◌, ◌^◌, length, IfOk};
ghost use Rattle.outside.specs.StdFiles.{failed_reads, failed_writes};

use crate::tally::count_fault;
use crate::whole::{read_prefix, write_whole};
use crate::{FileFault, Files};
use std::alloc::Global;
use std::fs::{File, OpenFile, OpenOptions};
use std::io::Write;
use std::{fs, rt};

/// The files of a runtime, which for a program are those of the system. It says nothing of their contents.
///
/// Each error of the system is `Failed`. What an Ok has written was handed to the disk before (`fsync`), and the folder
/// too. The file of the last append stays open for a next one to the same name, until a write fails or a file is
/// replaced: nobody else may rename or remove it meanwhile.
#[derive(Drop)]
pub struct StdFiles<'a, R: rt::Files> {
    rt: &'a R,
    kept: Option<Kept<R::File>>,
    read_faults: u64,
    write_faults: u64,
}

// A file that is open for appends, under its name.
#[derive(Drop)]
struct Kept<F> {
    name: String,
    file: F,
}

impl<'a, R: rt::Files> StdFiles<'a, R> {
    /// The files of the runtime, with no fault.
    pub fn new(rt: &'a R) -> StdFiles<'a, R>
        ensures reads { failed_reads result ≡ 0 }
        ensures writes { failed_writes result ≡ 0 }
    {
        StdFiles {
            rt,
            kept: None,
            read_faults: 0,
            write_faults: 0,
        }
    }
}

impl<R: rt::Files + AllocGlobal> Files for StdFiles<'_, R> {
    ghost use Rattle.std.specs.Prelude.{None};
    ghost use Rattle.outside.specs.Bytes.{none_is_bytes};
    ghost use Rattle.outside.specs.StdFiles.{failed_reads, failed_writes};

    ghost contents = { λ _. None };

    ghost reads = { λ _. None };

    ghost writes = { λ _. None };

    ghost read_faults = { failed_reads };

    ghost write_faults = { failed_writes };

    ghost contents_are_bytes = { λ s of name told. none_is_bytes of name told };

    fn read(&mut self, alloc: Global, name: &str, most: u64) -> Result<Vec<u8>, FileFault> {
        let answer = read_file(self.rt, alloc, name, most);
        count_fault(&mut self.read_faults, answer)
    }

    fn append(&mut self, name: &str, bytes: &[u8]) -> Result<(), FileFault> {
        let answer = append_kept(self.rt, &mut self.kept, name, bytes);
        count_fault(&mut self.write_faults, answer)
    }

    /// The bytes go to a file of the name followed by `.new`, which is then renamed. That file is the adapter's own:
    /// what stood there before is lost. Where the write or the renaming fails, it is removed.
    fn replace(&mut self, name: &str, bytes: &[u8]) -> Result<(), FileFault> {
        self.kept = None;
        let answer = replace_file(self.rt, name, bytes);
        count_fault(&mut self.write_faults, answer)
    }
}

fn read_file<R: rt::Files>(
    rt: &R,
    alloc: Global,
    name: &str,
    most: u64,
) -> Result<Vec<u8>, FileFault>
    requires { most < 2 ^ 63 }
    ensures { IfOk result (λ v. length v.items ≤ most + 1) }
{
    let mut file = File::open(rt, name)?;
    read_prefix(alloc, &mut file, most)
}

// Adds bytes to the file that is kept, where it has the name, and else to one that is opened and kept in its place. A
// fault keeps none.
fn append_kept<R: rt::Files + AllocGlobal>(
    rt: &R,
    kept: &mut Option<Kept<R::File>>,
    name: &str,
    bytes: &[u8],
) -> Result<(), FileFault> {
    let mut open = match kept.take() {
        Some(last) if last.name.as_str() == name => last,
        _ => open_file(rt, name)?,
    };
    write_synced(&mut open.file, bytes)?;
    *kept = Some(open);
    Ok(())
}

// Opens a file for appends, which is made where it is not there, and syncs its folder: whoever made or renamed the file
// before may have failed to.
fn open_file<R: rt::Files + AllocGlobal>(rt: &R, name: &str) -> Result<Kept<R::File>, FileFault> {
    let own = String::from_str(rt.alloc(), name)?;
    let file = OpenOptions::new().append(true).create(true).open(rt, name)?;
    sync_folder(rt, name)?;
    Ok(Kept { name: own, file })
}

// Writes a draft, and renames it to the name. Where one of these fails, the draft is removed.
fn replace_file<R: rt::Files + AllocGlobal>(
    rt: &R,
    name: &str,
    bytes: &[u8],
) -> Result<(), FileFault> {
    let mut draft = String::from_str(rt.alloc(), name)?;
    draft.push_str(".new")?;
    let mut file = File::create(rt, draft.as_str())?;
    match fill_and_rename(rt, &mut file, draft.as_str(), name, bytes) {
        Ok(()) => sync_folder(rt, name),
        Err(fault) => {
            let _ = fs::remove_file(rt, draft.as_str());
            Err(fault)
        }
    }
}

fn fill_and_rename<R: rt::Files>(
    rt: &R,
    file: &mut R::File,
    draft: &str,
    name: &str,
    bytes: &[u8],
) -> Result<(), FileFault> {
    write_synced(file, bytes)?;
    fs::rename(rt, draft, name)?;
    Ok(())
}

// Writes the bytes, and hands them to the disk.
fn write_synced<W: Write + OpenFile>(file: &mut W, bytes: &[u8]) -> Result<(), FileFault> {
    write_whole(file, bytes)?;
    file.sync_all()?;
    Ok(())
}

// Hands to the disk which files a folder has: that of the name, which was made or renamed there.
fn sync_folder<R: rt::Files>(rt: &R, name: &str) -> Result<(), FileFault> {
    let folder = match name.rsplit_once('/') {
        None => ".",
        Some(("", _)) => "/",
        Some((folder, _)) => folder,
    };
    File::open(rt, folder)?.sync_all()?;
    Ok(())
}
